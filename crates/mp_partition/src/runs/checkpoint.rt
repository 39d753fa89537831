//! A state of a module at a time.

use mp_modules::Memory;

/// A module's state before the unit of a time.
#[derive(Clone, Copy)]
pub struct Checkpoint {
    pub time: u32,
    pub memory: Memory,
}
