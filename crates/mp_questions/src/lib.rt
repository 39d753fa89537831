//! Questions about the waves of a netlist.
//!
//! `timing` has what is counted over a range of times (`measure`) and who waits for whom (`waits`). `causes` goes back from a level to what caused it
//! (`why`, `links`) and says where the time went (`path`). `late` finds data of bundles that come after a request and aren't its effect.
#![tactic(auto)]

pub mod causes;
mod late;
pub mod timing;

pub use causes::{CauseLink, Moment, WireChange, links, put_path, put_path_since, put_why};
pub use late::{Driven, Late, all_late, late_lists};
pub use timing::{Extremes, TimeRange, put_measure, put_waits, put_wire_measures};
