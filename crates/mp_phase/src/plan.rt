//! What is done with a crew.

use crate::gate::Gate;
use crate::work::Work;
use crate::workers::Workers;
use std::sync::Wait;

/// What is done while a crew is held.
pub trait Plan: Drop {
    ghost use Rattle.std.specs.Prelude.{ℕ, Bool};

    /// What the crew is given to do.
    type Task: Work;

    /// What comes of the plan.
    type Outcome;

    /// This may come of the plan.
    ghost ends_in: { Self → Self.Outcome → Type 0 };

    /// The plan may be carried out if these may enter.
    ghost needs: { Self → (ℕ → ℕ → ℕ → Bool) → Type 0 };

    /// Carries the plan out.
    fn carry_out<R: Wait, G: Gate>(
        self,
        rt: &R,
        workers: &mut Workers<'_, Self::Task, G>,
    ) -> Self::Outcome
        requires allowed { needs self (G.may workers.old.gate.now) }
        ensures { ends_in self result };
}
