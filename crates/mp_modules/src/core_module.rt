//! The modules that steer events.
ghost use Rattle.std.specs.Prelude.{◌≡◌};
ghost use Rattle.mp_modules.specs.Tables.{first_output};

use crate::arbiter::{arbiter_step, is_done_without_grant, is_repeat_request};
use crate::call::{call_step, is_done_without_call, is_overlap};
use crate::event_module::EventModule;
use crate::finding_code::FindingCode;
use crate::finding_set::FindingSet;
use crate::memory::Memory;
use crate::rendezvous::Rendezvous;
use crate::select::{is_unstable, select_step};
use crate::toggle::toggle_step;

/// An event module that joins or steers events, with its parameters.
#[derive(Clone, Copy, PartialEq, Eq)]
pub enum CoreModule {
    C(Rendezvous),
    Toggle,
    Select,
    Call,
    Arbiter,
}

impl CoreModule {
    fn first_output(self) -> u64
        ensures { result ≡ first_output self }
    {
        match self {
            CoreModule::C(c) => u64::from(c.initial),
            _ => 0,
        }
    }
}

impl EventModule for CoreModule {
    ghost use Rattle.mp_modules.specs.Tables as tables;
    ghost use Rattle.mp_modules.specs.Memories.{output_of};
    ghost use Rattle.mp_modules.specs.QuietModules as quiet;

    ghost start_of = { tables.start };

    ghost settled = { tables.settle };

    ghost stepped = { tables.step };

    ghost level_out = { λ part. output_of };

    ghost found = { tables.found };

    ghost settled_stays = { quiet.settled_stays };

    ghost stepped_stays = { quiet.stepped_stays };

    ghost settled_quiet = { quiet.settled_quiet };

    ghost stepped_quiet = { quiet.stepped_quiet };

    fn start(&self) -> Memory {
        Memory::with_one_output(&[], self.first_output())
    }

    fn settle(&self, levels: &[u64]) -> Memory {
        let mut memory = self.start().seen(levels);
        self.step(&mut memory, levels);
        memory
    }

    // Inlined, so that the most frequent kinds write only what changes, in place.
    #[inline(always)]
    fn step(&self, memory: &mut Memory, levels: &[u64]) {
        match *self {
            CoreModule::C(c) => memory.set_one_output(levels, c.join(memory.output(0), levels)),
            CoreModule::Toggle => *memory = toggle_step(*memory, levels),
            CoreModule::Select => *memory = select_step(*memory, levels),
            CoreModule::Call => *memory = call_step(*memory, levels),
            CoreModule::Arbiter => *memory = arbiter_step(*memory, levels),
        }
    }

    fn out(&self, memory: Memory, port: usize) -> u64 {
        memory.output(port)
    }

    fn findings(&self, memory: Memory, levels: &[u64]) -> FindingSet {
        let none = FindingSet::empty();
        match *self {
            CoreModule::Toggle => none,
            CoreModule::C(c) => {
                none.with_if(FindingCode::Withdrawn, c.is_withdrawn(memory, levels))
            }
            CoreModule::Select => {
                none.with_if(FindingCode::SelectUnstable, is_unstable(memory, levels))
            }
            CoreModule::Call => none
                .with_if(FindingCode::CallOverlap, is_overlap(memory, levels))
                .with_if(
                    FindingCode::DoneWithoutCall,
                    is_done_without_call(memory, levels),
                ),
            CoreModule::Arbiter => none
                .with_if(
                    FindingCode::RepeatRequest,
                    is_repeat_request(memory, levels),
                )
                .with_if(
                    FindingCode::DoneWithoutGrant,
                    is_done_without_grant(memory, levels),
                ),
        }
    }
}
