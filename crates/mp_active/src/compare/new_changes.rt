//! What changes in the next unit of a new run.

use mp_kernel::LevelChange;

/// The known changes of the next unit of a new run. For numbers of width 1 these are the toggles: of wires that modules drive, of copies, and of
/// wires that are set. For numbers with data they are the new levels, likewise.
#[derive(Clone, Copy)]
pub struct NewChanges<'a> {
    pub wires: &'a [u32],
    pub copies: &'a [u32],
    pub set: &'a [u32],
    pub levels: &'a [LevelChange],
    pub set_levels: &'a [LevelChange],
}
