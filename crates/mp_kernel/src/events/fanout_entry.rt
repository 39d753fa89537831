//! An input that reads a wire.

/// An input of a module of width 1: the module's place among the states, and the bit of the port's event (`mp_modules::event_bit`).
#[derive(Clone, Copy, Default)]
pub struct FanoutEntry {
    pub module: u32,
    pub event: u16,
}
