//! States of modules in four bytes.

use mp_modules::{Client, Memory, PortLevels, Waiting};
use std::marker::Model;

/// The state of a module at whose ports all levels are 0 or 1, in four bytes in place of 64. Contracts see the state.
#[derive(Drop)]
pub(crate) struct BitMemory {
    levels: PortLevels,
    served: Client,
    waiting: Waiting,
}

impl Model for BitMemory {
    ghost use Rattle.mp_modules.specs.declared.memory.Memory.{Memory};
    ghost use Rattle.mp_modules.specs.automata.PortLevels.{input_bits, output_bits};

    ghost Value = { Memory };

    ghost view = { λ bits. record { inputs = input_bits bits.levels.0; outputs = output_bits bits.levels.0; served = bits.served; waiting = bits.waiting } };
}

impl BitMemory {
    ghost use Rattle.std.specs.Prelude.{◌≡◌, IfSome};

    /// A state, if its levels are all 0 or 1.
    #[inline(always)]
    pub(crate) fn of(memory: Memory) -> Option<BitMemory>
        ensures { IfSome result (λ bits. bits ≡ memory) }
    {
        let bits = BitMemory {
            levels: PortLevels::of(&memory),
            served: memory.served,
            waiting: memory.waiting,
        };
        if bits.memory() == memory {
            Some(bits)
        } else {
            None
        }
    }

    /// The state.
    #[inline(always)]
    pub(crate) fn memory(&self) -> Memory
        ensures { result ≡ self.now }
    {
        Memory {
            inputs: self.levels.inputs(),
            outputs: self.levels.outputs(),
            served: self.served,
            waiting: self.waiting,
        }
    }
}
