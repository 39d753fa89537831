//! A module with data.
ghost use Rattle.std.specs.Prelude.{◌≡◌, ℕ, ◌<◌, Some, length};
ghost use Rattle.mp_kernel.specs.datapath.Levels.{level_at};

use crate::datapath::data_ports::DataPorts;
use mp_modules::{DataPart, MOST_INPUTS, Memory, OutputLevels};

/// A module with data: its part, the levels of its outputs, the numbers that its inputs read, and what it drives. The rest of its state is the levels
/// of those numbers.
#[derive(Clone, Copy)]
pub struct DataModule {
    pub part: DataPart,
    pub outputs: OutputLevels,
    pub inputs: [Option<u32>; MOST_INPUTS],
    pub ports: DataPorts,
}

impl DataModule {
    ghost use Rattle.std.specs.Prelude.{◌≡◌, ℕ, ◌<◌, length};
    ghost use Rattle.mp_kernel.specs.datapath.Levels.{level_at};
    ghost use Rattle.mp_kernel.specs.datapath.DataModules.{ReadsBelow, input_of, inputs_of, stepped, memory_of};

    /// Steps to the next unit, in which numbers have these levels.
    #[inline(always)]
    pub(crate) fn step(&mut self, levels: &[u64])
        requires { ReadsBelow (length levels.now) self.old }
        ensures { self.new ≡ stepped levels.now self.old }
    {
        self.outputs = self
            .part
            .next_outputs(self.outputs, self.input_levels(levels));
    }

    /// The module's state, if numbers have these levels.
    pub fn memory(&self, levels: &[u64]) -> Memory
        requires { ReadsBelow (length levels.now) self.now }
        ensures { result ≡ memory_of levels.now self.now }
    {
        let inputs = self.input_levels(levels);
        let OutputLevels {
            first,
            second,
            third,
        } = self.outputs;
        Memory::with_outputs(&inputs, [first, second, third])
    }

    /// The levels at its inputs.
    #[inline(always)]
    fn input_levels(&self, levels: &[u64]) -> [u64; MOST_INPUTS]
        requires { ReadsBelow (length levels.now) self.now }
        ensures { result ≡ inputs_of levels.now self.now }
    {
        [
            self.input_level(levels, 0),
            self.input_level(levels, 1),
            self.input_level(levels, 2),
            self.input_level(levels, 3),
        ]
    }

    /// The level at an input, 0 if the input reads no number.
    #[inline(always)]
    fn input_level(&self, levels: &[u64], port: usize) -> u64
        requires port { port < 4 }
        requires reads { ReadsBelow (length levels.now) self.now }
        ensures { result ≡ level_at levels.now (input_of self.now port) }
    {
        level_of(levels, self.inputs[port])
    }
}

/// The level of a number, 0 if there is none.
#[inline(always)]
fn level_of(levels: &[u64], number: Option<u32>) -> u64
    requires { (x : ℕ) → number ≡ Some x → x < length levels.now }
    ensures { result ≡ level_at levels.now number }
{
    match number {
        Some(number) => levels[number as usize],
        None => 0,
    }
}
