//! What a crew can be given to do.

ghost use Rattle.std.specs.Prelude.{IfOk, OnOk};
ghost use Rattle.mp_phase.specs.Allowed.{IsAllowed, HavePassed};

use crate::gate::Gate;
use std::alloc::{AllocError, Global};
use std::sync::Wait;

/// A task that any thread may do.
pub trait Work: Drop {
    ghost use Rattle.std.specs.Prelude.{ℕ};

    /// What is made of a task.
    type Done: Drop;

    /// The work makes this of the task.
    ghost gives: { Self → Self.Done → Type 0 };

    /// The task lets the module of a number enter, for the units from one time to before another.
    ghost enters: { Self → ℕ → ℕ → ℕ → Type 0 };

    /// If the task has been done, the module of a number has passed the gate, for the units from one time to before another.
    ghost passes: { Self → ℕ → ℕ → ℕ → Type 0 };

    /// How much work it is, in modules.
    fn weight(&self) -> usize {
        1
    }

    /// Does the task. It is given up if memory is refused.
    fn work<R: Wait, G: Gate>(
        self,
        rt: &R,
        alloc: Global,
        gate: &G,
    ) -> Result<Self::Done, AllocError>
        requires allowed { IsAllowed (enters self) (G.may gate.now) }
        ensures done { IfOk result (λ done. gives self done) }
        ensures passed { OnOk result (HavePassed (passes self) (G.passed gate.now)) };
}
