//! Workers that wait for work.

ghost use Rattle.mp_phase.specs.Lines.{AreFree};

use crate::gate::Gate;
use crate::job::Job;
use crate::mailbox::Mailbox;
use crate::phase::phase;
use crate::share::run_here;
use crate::work::Work;
use crossbeam_channel::Receiver;
use std::alloc::{AllocError, Global};
use std::sync::Wait;

/// The workers of a crew while it is held.
#[derive(Drop)]
pub struct Workers<'a, T: Work, G: Gate> {
    gate: &'a G,
    alloc: Global,
    mailboxes: Vec<Mailbox<'a, T, G>>,
    least: u32,
    ghost free: { AreFree mailboxes.items },
}

impl<'a, T: Work, G: Gate> Workers<'a, T, G> {
    ghost use Rattle.std.specs.Prelude.{◌≡◌, IfOk, OnOk};
    ghost use Rattle.mp_phase.specs.Allowed.{AreAllowed};
    ghost use Rattle.mp_phase.specs.Phase.{AreDone};

    /// No workers.
    pub(crate) fn none(alloc: Global, gate: &'a G, least: u32) -> Workers<'a, T, G>
        ensures { result.gate ≡ gate.entry }
    {
        Workers {
            gate,
            alloc,
            mailboxes: Vec::new(alloc),
            least,
        }
    }

    /// One more worker, which is to do these jobs.
    pub(crate) fn add(&mut self) -> Result<Receiver<Job<'a, T, G>>, AllocError>
        ensures { OnOk result (self.new.gate ≡ self.old.gate) }
    {
        let (mailbox, jobs) = Mailbox::new(self.alloc)?;
        self.mailboxes.push(mailbox)?;
        Ok(jobs)
    }

    /// Does the tasks, with a share for each worker and for the calling thread, and returns their results in order. Tasks that weigh less than the
    /// crew's `least` are all done on the calling thread. If memory is refused, no further share is begun, and the call waits for those that are out.
    pub fn run<R: Wait>(&mut self, rt: &R, tasks: Vec<T>) -> Result<Vec<T::Done>, AllocError>
        requires allowed { AreAllowed T.enters (G.may self.old.gate.now) tasks.items }
        ensures done { IfOk result (λ dones. AreDone T.gives tasks.items dones.items) }
        ensures gate { self.new.gate ≡ self.old.gate }
    {
        let gate = self.gate;
        let alloc = self.alloc;
        if self.mailboxes.is_empty() || weight_of(tasks.as_slice()) < self.least as usize {
            return run_here(rt, alloc, gate, tasks);
        }
        phase(rt, alloc, gate, self.mailboxes.as_mut_slice(), tasks)
    }
}

/// What the tasks weigh together.
fn weight_of<T: Work>(tasks: &[T]) -> usize {
    let mut weight = 0usize;
    for task in tasks {
        weight = weight.saturating_add(task.weight());
    }
    weight
}
