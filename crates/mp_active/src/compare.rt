//! A netlist that is evaluated again is compared with its old run, number by number.

mod change;
mod comparison;
mod departing;
mod first_comparison;
mod first_sources;
pub mod laws;
mod listing;
mod nearby;
mod new_changes;
mod numbers;
mod old_run;
mod passing;
mod set_wires;
mod stimuli;
mod waking;
mod wire_source;

pub use change::Change;
pub use comparison::Comparison;
pub use nearby::{find_near, rests_near};
pub use new_changes::NewChanges;
pub use numbers::Numbers;
pub use set_wires::SetWires;
pub use stimuli::changed_stimuli;
pub use wire_source::WireSource;
