//! Whether a netlist works.
//!
//! `check` collects the findings of a netlist, late data, and deadlocks: ports that wait for each other's wires for ever. `put_check` writes these
//! and the notes on wires and bundles, as far as they are selected, each in a line or in brief. Begin with `specs/CheckTexts.antt`, which says what is
//! written. `dead` has which ports never change their wires again, `waiting` which of these wait for each other, `rounds` how those that wait in a circle
//! are found, and `over` whether anything still changes.
#![tactic(auto)]

mod awaited;
mod brief;
mod busy;
mod check_asked;
mod checked;
mod dead;
mod deadlocks;
mod group;
mod grouping;
mod held_memory;
pub mod laws;
mod lines;
mod module_end;
mod names;
mod notes;
mod over;
mod problem;
mod quiet;
mod read_wires;
mod rounds;
mod run_end;
mod selected;
mod selection;
mod wait;
mod waiting;

pub use check_asked::{CheckAsked, put_check};
pub use checked::{Checked, check};
pub use deadlocks::Deadlock;
pub use selected::put_selected_report;
pub use selection::{Selection, missing_place};
pub use wait::Wait;
