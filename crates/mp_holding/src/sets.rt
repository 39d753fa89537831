//! Sets of numbers that keep their members.
//!
//! Each number has needs. A set that has no member whose needs the set doesn't meet is closed. `greatest_closed_set` finds the union of all closed
//! sets, which is closed itself. Begin with `specs/sets/ClosedSets.antt`; `elimination` has how the set is found.

mod elimination;
pub mod laws;
mod left;
mod marks;
mod needs;
mod readers;

pub use elimination::greatest_closed_set;
pub use marks::is_marked;
pub use needs::{Need, Needs, Shape};
