//! What tests make netlists of, sessions of them, and gates at which calls meet or are counted.

pub mod branches;
pub mod buffers;
pub mod groups;
pub mod meeting;
pub mod passage_counter;
pub mod sessions;
pub mod test_netlist;
pub mod texts;
pub mod two_inputs;
