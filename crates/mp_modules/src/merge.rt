//! The merge of two events by an XOR.
ghost use Rattle.std.specs.Prelude.{◌≡◌};
ghost use Rattle.mp_modules.specs.Merge.{is_collision};

use crate::memory::Memory;

/// Whether both inputs change.
pub(crate) fn is_collision(memory: Memory, levels: &[u64]) -> bool
    ensures { result ≡ is_collision memory levels.now }
{
    memory.is_event(levels, 0) && memory.is_event(levels, 1)
}
