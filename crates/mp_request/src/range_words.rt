//! A range of times, and names.

/// A range of times, and the names of what is looked at in it: of wires, or of modules and bundles. They are as they were given.
#[derive(Drop)]
pub struct RangeWords<'a> {
    /// The names; none if everything is looked at.
    pub names: Vec<&'a str>,
    /// The first time, in units, 0 if none is given.
    pub from: u64,
    /// The end of the times, in units, not included; 2^64 - 1 if none is given.
    pub to: u64,
}
