//! Which inputs hold an output of a module: the output keeps its level as long as these inputs keep theirs.
//!
//! `specs/Holding.antt` has the inputs by kind, `holding_sets` finds them, and `laws` says what they mean. `sets` has the sets of numbers that keep
//! their members, as ports that hold one another do.
#![tactic(auto)]

mod holding;
mod input_set;
pub mod laws;
pub mod sets;

pub use holding::holding_sets;
pub use input_set::{InputSet, InputSets};
