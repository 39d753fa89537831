//! The parts of modules with data.
ghost use Rattle.std.specs.Prelude.{◌≡◌};
ghost use Rattle.mp_modules.specs.storage.Reg.{latched};

use crate::storage::any_module::AnyModule;
use crate::storage::function_module::FunctionModule;
use crate::storage::output_levels::OutputLevels;
use crate::{Function, MOST_INPUTS};

/// What a module with data does. It is smaller than an `AnyModule`, which may also have no data.
#[derive(Clone, Copy)]
pub enum DataPart {
    Reg {
        initial: u64,
    },
    Function {
        function: Function,
        width: u32,
        constant: u64,
    },
}

impl DataPart {
    ghost use Rattle.std.specs.Prelude.{◌≡◌};
    ghost use Rattle.mp_modules.specs.storage.DataParts.{data_part, next_outputs};

    /// The part of a module with data.
    pub fn of(part: &AnyModule) -> DataPart
        ensures { result ≡ data_part part.now }
    {
        match *part {
            AnyModule::Core(_) => DataPart::Reg { initial: 0 },
            AnyModule::Reg(reg) => DataPart::Reg {
                initial: reg.initial,
            },
            AnyModule::Function(
                FunctionModule {
                    function,
                    width,
                    constant,
                },
            ) => DataPart::Function {
                function,
                width,
                constant,
            },
        }
    }

    /// The module's outputs in a unit in which its inputs have these levels, from its outputs one unit before.
    #[inline(always)]
    pub fn next_outputs(self, before: OutputLevels, levels: [u64; MOST_INPUTS]) -> OutputLevels
        ensures { result ≡ next_outputs self before levels }
    {
        let [level, second, third, _] = levels;
        match self {
            DataPart::Reg { .. } => OutputLevels {
                first: latched(before.first, levels),
                second,
                third,
            },
            DataPart::Function {
                function,
                width,
                constant,
            } => {
                let part = FunctionModule {
                    function,
                    width,
                    constant,
                };
                OutputLevels {
                    first: part.value(level, second, third),
                    ..before
                }
            }
        }
    }
}

/// The output of a register that held this level, from the levels of its data, its capture and its pass.
#[inline(always)]
fn latched(held: u64, levels: [u64; MOST_INPUTS]) -> u64
    ensures { result ≡ latched held levels }
{
    if levels[1] == levels[2] {
        levels[0]
    } else {
        held
    }
}
