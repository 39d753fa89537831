//! What a module did over a span of time.

use crate::response::findings::Findings;
use crate::response::outputs::Outputs;
use mp_modules::{AnyModule, EventModule, FindingSet, MOST_OUTPUTS, Memory};
use std::alloc::{AllocError, Global};

/// The last state of a module in a span of time, the changes of its outputs in it before their delays, with the level at time 0 as the first if the
/// span begins there, and what was found, by time and then by the codes' numbers.
#[derive(Drop)]
pub struct Piece {
    pub memory: Memory,
    pub outputs: Outputs,
    pub findings: Findings,
}

impl Piece {
    ghost use Rattle.std.specs.Prelude.{◌≡◌, ℕ, ◌≤◌, [], OnOk, length, slice_index_or};
    ghost use Rattle.mp_model.specs.response.Span.{IsUnitMore};

    /// A span of no unit, from a state on.
    pub(crate) fn none(alloc: Global, memory: Memory, ports: usize) -> Self
        requires { ports ≤ MOST_OUTPUTS }
        ensures memory { result.memory ≡ memory }
        ensures ports { length result.outputs ≡ ports }
        ensures outputs { (p : ℕ) → slice_index_or result.outputs p [] ≡ [] }
        ensures findings { result.findings ≡ [] }
    {
        Piece {
            memory,
            outputs: Outputs::none(alloc, ports),
            findings: Findings::none(alloc),
        }
    }

    /// One more unit.
    pub(crate) fn extend(
        &mut self,
        part: &AnyModule,
        levels: &[u64],
        time: u32,
    ) -> Result<(), AllocError>
        ensures ok { OnOk result (IsUnitMore part.now levels.now time self.old self.new) }
    {
        let after = next_state(part, &self.memory, levels, time);
        let found = found_at(part, &self.memory, levels, time);
        self.outputs.extend(time, &self.memory, &after)?;
        self.findings.extend(time, found)?;
        self.memory = after;
        Ok(())
    }
}

ghost use Rattle.std.specs.Prelude.{◌≡◌};
ghost use Rattle.mp_model.specs.response.Span.{next_state, found_at};

/// The state after a unit.
fn next_state(part: &AnyModule, memory: &Memory, levels: &[u64], time: u32) -> Memory
    ensures { result ≡ next_state part.now memory.now levels.now time }
{
    if time == 0 {
        return part.settle(levels);
    }
    let mut next = *memory;
    part.step(&mut next, levels);
    next
}

/// What is found at a unit.
fn found_at(part: &AnyModule, memory: &Memory, levels: &[u64], time: u32) -> FindingSet
    ensures { result ≡ found_at part.now memory.now levels.now time }
{
    if time == 0 {
        FindingSet::empty()
    } else {
        part.findings(*memory, levels)
    }
}
