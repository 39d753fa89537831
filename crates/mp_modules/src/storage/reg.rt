//! REG, the event-controlled storage element.
ghost use Rattle.std.specs.Prelude.{◌≡◌};

use crate::{EventModule, FindingCode, FindingSet, Memory, level_at};

/// A register, which holds its data from a capture to a pass (Sutherland 1989, event-controlled storage). It is made from its output
/// before time 0.
#[derive(Clone, Copy, PartialEq, Eq)]
pub struct Reg {
    pub initial: u64,
}

impl EventModule for Reg {
    ghost use Rattle.mp_modules.specs.storage.Reg as reg;
    ghost use Rattle.mp_modules.specs.Memories.{output_of};
    ghost use Rattle.mp_modules.specs.storage.QuietStorage as quiet;

    ghost start_of = { reg.start };

    ghost settled = { reg.settle };

    ghost stepped = { reg.step };

    ghost level_out = { λ part. output_of };

    ghost found = { reg.found };

    ghost settled_stays = { quiet.reg_settled_stays };

    ghost stepped_stays = { quiet.reg_stepped_stays };

    ghost settled_quiet = { quiet.reg_settled_quiet };

    ghost stepped_quiet = { quiet.reg_stepped_quiet };

    fn start(&self) -> Memory {
        Memory::with_outputs(&[], [self.initial, 0, 0])
    }

    fn settle(&self, levels: &[u64]) -> Memory {
        let mut memory = self.start().seen(levels);
        self.step(&mut memory, levels);
        memory
    }

    fn step(&self, memory: &mut Memory, levels: &[u64]) {
        let held = latched(memory.output(0), levels);
        memory.set_outputs(levels, [held, level_at(levels, 1), level_at(levels, 2)]);
    }

    fn out(&self, memory: Memory, port: usize) -> u64 {
        memory.output(port)
    }

    fn findings(&self, memory: Memory, levels: &[u64]) -> FindingSet {
        FindingSet::empty()
            .with_if(
                FindingCode::CaptureWhileHeld,
                is_capture_while_held(memory, levels),
            )
            .with_if(
                FindingCode::PassWhileOpen,
                is_pass_while_open(memory, levels),
            )
            .with_if(
                FindingCode::DataAtCapture,
                is_data_at_capture(memory, levels),
            )
    }
}

ghost use Rattle.mp_modules.specs.storage.Reg.{is_open, latched, is_capture_while_held, is_pass_while_open, is_data_at_capture};

/// Whether capture and pass have equal levels.
fn is_open(levels: &[u64]) -> bool
    ensures { result ≡ is_open levels.now }
{
    level_at(levels, 1) == level_at(levels, 2)
}

/// The data while it is open, and otherwise what it held.
fn latched(former: u64, levels: &[u64]) -> u64
    ensures { result ≡ latched former levels.now }
{
    if is_open(levels) {
        level_at(levels, 0)
    } else {
        former
    }
}

/// Whether the capture changes, held one unit before.
fn is_capture_while_held(memory: Memory, levels: &[u64]) -> bool
    ensures { result ≡ is_capture_while_held memory levels.now }
{
    memory.is_event(levels, 1) && !is_open(&memory.inputs)
}

/// Whether the pass changes, open one unit before.
fn is_pass_while_open(memory: Memory, levels: &[u64]) -> bool
    ensures { result ≡ is_pass_while_open memory levels.now }
{
    memory.is_event(levels, 2) && is_open(&memory.inputs)
}

/// Whether the data changes, open one unit before and held now.
fn is_data_at_capture(memory: Memory, levels: &[u64]) -> bool
    ensures { result ≡ is_data_at_capture memory levels.now }
{
    memory.is_event(levels, 0) && is_open(&memory.inputs) && !is_open(levels)
}
