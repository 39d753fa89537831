//! One list of tasks by workers of its own.

ghost use Rattle.std.specs.Prelude.{IfOk};
ghost use Rattle.mp_phase.specs.Allowed.{AreAllowed};
ghost use Rattle.mp_phase.specs.Phase.{AreDone};

use crate::gate::Gate;
use crate::plan::Plan;
use crate::work::Work;
use crate::workers::Workers;
use std::alloc::AllocError;
use std::sync::Wait;

/// A list of tasks, to be done at once.
#[derive(Drop)]
pub struct OnePhase<T> {
    pub tasks: Vec<T>,
}

impl<T: Work> Plan for OnePhase<T> {
    type Task = T;

    type Outcome = Result<Vec<T::Done>, AllocError>;

    ghost ends_in = { λ plan outcome. IfOk outcome (λ dones. AreDone T.gives plan.tasks.items dones.items) };

    ghost needs = { λ plan may. AreAllowed T.enters may plan.tasks.items };

    fn carry_out<R: Wait, G: Gate>(
        self,
        rt: &R,
        workers: &mut Workers<'_, T, G>,
    ) -> Result<Vec<T::Done>, AllocError> {
        let OnePhase { tasks } = self;
        workers.run(rt, tasks)
    }
}
