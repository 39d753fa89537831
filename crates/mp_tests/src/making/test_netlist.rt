//! A netlist of the tests.

/// A netlist's statements, the number of its modules, and its horizon.
#[derive(Clone, Copy)]
pub struct TestNetlist<'a>(pub &'a str, pub u32, pub u32);
