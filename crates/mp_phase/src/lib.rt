//! Tasks to workers, and back.
#![tactic(auto)]

mod answer_protocol;
mod bad_count;
mod crew;
mod ends;
mod gate;
mod job;
mod leave;
mod mailbox;
mod now;
mod one_phase;
mod open_gate;
mod phase;
mod plan;
mod share;
mod side;
mod work;
mod worker;
mod workers;

pub use bad_count::BadCount;
pub use crew::{Crew, lookers};
pub use gate::Gate;
pub use open_gate::OpenGate;
pub use plan::Plan;
pub use share::run_here;
pub use work::Work;
pub use worker::LOOKS;
pub use workers::Workers;
