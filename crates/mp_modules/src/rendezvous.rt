//! The Muller C-element.
ghost use Rattle.std.specs.Prelude.{◌≡◌};
ghost use Rattle.mp_modules.specs.CElement.{joined, bubbled, is_withdrawn_at, is_withdrawn};
ghost use Rattle.mp_modules.specs.Tables.{rendezvous};

use crate::memory::{Memory, level_at};

/// A C-element: its output before time 0, and which of its inputs have a bubble, which inverts them.
#[derive(Clone, Copy, PartialEq, Eq)]
pub struct Rendezvous {
    pub initial: bool,
    pub bubble_a: bool,
    pub bubble_b: bool,
}

impl Rendezvous {
    /// A C-element from its parameters.
    pub fn from_params(params: &[u64]) -> Rendezvous
        ensures { result ≡ rendezvous params.now }
    {
        Rendezvous {
            initial: level_at(params, 0) == 1,
            bubble_a: level_at(params, 1) == 1,
            bubble_b: level_at(params, 2) == 1,
        }
    }

    /// The level of the inputs behind their bubbles if they agree, and otherwise the former output.
    pub(crate) fn join(self, former: u64, levels: &[u64]) -> u64
        ensures { result ≡ joined self former levels.now }
    {
        let a = bubbled(self.bubble_a, level_at(levels, 0));
        let b = bubbled(self.bubble_b, level_at(levels, 1));
        if a == b { a } else { former }
    }

    /// Whether an input changes that was waiting for the other one.
    pub(crate) fn is_withdrawn(self, memory: Memory, levels: &[u64]) -> bool
        ensures { result ≡ is_withdrawn self memory levels.now }
    {
        is_withdrawn_at(self.bubble_a, memory, levels, 0)
            || is_withdrawn_at(self.bubble_b, memory, levels, 1)
    }
}

/// The level behind a bubble, if the input has one.
fn bubbled(bubble: bool, level: u64) -> u64
    ensures { result ≡ bubbled bubble level }
{
    if bubble {
        1u64.saturating_sub(level)
    } else {
        level
    }
}

fn is_withdrawn_at(bubble: bool, memory: Memory, levels: &[u64], port: usize) -> bool
    ensures { result ≡ is_withdrawn_at bubble memory levels.now port }
{
    let before = bubbled(bubble, level_at(&memory.inputs, port));
    memory.is_event(levels, port) && before != memory.output(0)
}
