//! SELECT: an event changes one of two outputs, by the level of the diamond.
ghost use Rattle.std.specs.Prelude.{◌≡◌, ◌≤◌};
ghost use Rattle.mp_modules.specs.Select.{chosen, select_step, is_unstable};

use crate::memory::{Memory, level_at};

/// The state after a unit with these input levels.
pub(crate) fn select_step(memory: Memory, levels: &[u64]) -> Memory
    ensures { result ≡ select_step memory levels.now }
{
    if memory.is_event(levels, 0) {
        memory.flipped(chosen(levels)).seen(levels)
    } else {
        memory.seen(levels)
    }
}

/// The output that the diamond chooses.
fn chosen(levels: &[u64]) -> usize
    ensures port { result ≡ chosen levels.now }
    ensures low { result ≤ 1 }
{
    if level_at(levels, 1) == 1 { 0 } else { 1 }
}

/// Whether the diamond changes with the input.
pub(crate) fn is_unstable(memory: Memory, levels: &[u64]) -> bool
    ensures { result ≡ is_unstable memory levels.now }
{
    memory.is_event(levels, 1) && memory.is_event(levels, 0)
}
