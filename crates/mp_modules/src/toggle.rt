//! TOGGLE: events of one input change two outputs in turn.
ghost use Rattle.std.specs.Prelude.{◌≡◌, ◌≤◌};
ghost use Rattle.mp_modules.specs.Toggle.{turn, toggle_step};

use crate::memory::Memory;

/// The state after a unit with these input levels.
pub(crate) fn toggle_step(memory: Memory, levels: &[u64]) -> Memory
    ensures { result ≡ toggle_step memory levels.now }
{
    if memory.is_event(levels, 0) {
        memory.flipped(turn(&memory)).seen(levels)
    } else {
        memory.seen(levels)
    }
}

/// The output whose turn it is.
fn turn(memory: &Memory) -> usize
    ensures port { result ≡ turn memory.now }
    ensures low { result ≤ 1 }
{
    if memory.output(0) == memory.output(1) {
        0
    } else {
        1
    }
}
