//! Tests of how the faults of commands are told, by what their crate exports. They are a crate of their own since a crate with tests is proved twice.

#[cfg(test)]
mod faults;
