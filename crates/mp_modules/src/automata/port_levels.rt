//! The levels at the ports of a module of width 1.

use crate::{MOST_INPUTS, MOST_OUTPUTS, Memory};

/// The levels at the ports of a module of width 1, a bit each: bit p has the level of input p, and bit 4 + p that of output p before its delay.
#[derive(Clone, Copy)]
pub struct PortLevels(pub u8);

impl PortLevels {
    ghost use Rattle.std.specs.Prelude.{◌≡◌, bit_xor};
    ghost use Rattle.mp_modules.specs.automata.PortLevels.{levels_code, input_bits, output_bits};

    /// The levels of a state.
    pub fn of(memory: &Memory) -> PortLevels
        ensures { result.0 ≡ levels_code memory.now }
    {
        let inputs = memory.inputs;
        let outputs = memory.outputs;
        PortLevels(
            u8::from(inputs[0] == 1)
                + u8::from(inputs[1] == 1) * 2
                + u8::from(inputs[2] == 1) * 4
                + u8::from(inputs[3] == 1) * 8
                + u8::from(outputs[0] == 1) * 16
                + u8::from(outputs[1] == 1) * 32
                + u8::from(outputs[2] == 1) * 64,
        )
    }

    /// Changes the levels at the ports of these bits.
    #[inline(always)]
    pub fn flip(&mut self, ports: u8)
        ensures { self.new.0 ≡ bit_xor self.old.0 ports }
    {
        self.0 ^= ports;
    }

    /// The levels at the inputs.
    #[inline(always)]
    pub fn inputs(self) -> [u64; MOST_INPUTS]
        ensures { result ≡ input_bits self.0 }
    {
        [
            u64::from(self.0 % 2),
            u64::from(self.0 / 2 % 2),
            u64::from(self.0 / 4 % 2),
            u64::from(self.0 / 8 % 2),
        ]
    }

    /// The levels of the outputs.
    #[inline(always)]
    pub fn outputs(self) -> [u64; MOST_OUTPUTS]
        ensures { result ≡ output_bits self.0 }
    {
        [
            u64::from(self.0 / 16 % 2),
            u64::from(self.0 / 32 % 2),
            u64::from(self.0 / 64 % 2),
        ]
    }
}
