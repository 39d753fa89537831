//! A module as time passes.
ghost use Rattle.std.specs.Prelude.{◌≡◌};

use mp_modules::{AnyModule, EventModule, Memory};

/// A module and its present state.
#[derive(Clone, Copy)]
pub(crate) struct Cell {
    pub part: AnyModule,
    pub memory: Memory,
}

impl Cell {
    ghost use Rattle.std.specs.Prelude.{◌≡◌};
    ghost use Rattle.mp_model.specs.Cells.{after_answer};

    /// Steps to the state at a time, with these levels at the inputs.
    pub(crate) fn answer(&mut self, time: u32, levels: &[u64])
        ensures { self.new ≡ after_answer self.old time levels.now }
    {
        if time == 0 {
            self.memory = self.part.settle(levels);
        } else {
            self.part.step(&mut self.memory, levels);
        }
    }
}
