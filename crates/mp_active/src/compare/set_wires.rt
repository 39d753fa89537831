//! Which wires are set in a unit.

use mp_kernel::LevelChange;

/// The wires that are set in a unit: those of width 1 that toggle, and the levels of those with data.
#[derive(Drop)]
pub struct SetWires {
    pub bits: Vec<u32>,
    pub levels: Vec<LevelChange>,
}
