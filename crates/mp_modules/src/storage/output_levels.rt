//! The levels of a module's outputs.

use crate::Memory;

/// The levels of a module's outputs before their delays. Those of missing outputs are 0.
#[derive(Clone, Copy)]
pub struct OutputLevels {
    pub first: u64,
    pub second: u64,
    pub third: u64,
}

impl OutputLevels {
    ghost use Rattle.std.specs.Prelude.{◌≡◌};
    ghost use Rattle.mp_modules.specs.storage.DataParts.{outputs_in};

    /// The levels in a state.
    pub fn of(memory: &Memory) -> OutputLevels
        ensures { result ≡ outputs_in memory.now }
    {
        OutputLevels {
            first: memory.output(0),
            second: memory.output(1),
            third: memory.output(2),
        }
    }
}
