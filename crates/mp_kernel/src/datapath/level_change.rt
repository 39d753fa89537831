//! A change of level.

/// The number of a wire with data or of a delayed copy of one, and its level from a unit on.
#[derive(Clone, Copy)]
pub struct LevelChange {
    pub number: u32,
    pub level: u64,
}
