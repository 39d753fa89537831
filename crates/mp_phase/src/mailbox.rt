//! The mailbox to a worker.

use crate::answer_protocol::{Answer, AnswerProtocol};
use crate::ends::{Ends, receive, send};
use crate::gate::Gate;
use crate::job::Job;
use crate::leave::Leave;
use crate::now::Now;
use crate::share::run_here;
use crate::side::Side;
use crate::work::Work;
use crossbeam_channel::{Receiver, bounded, bounded_with};
use std::alloc::{AllocError, Global};
use std::marker::Model;
use std::mem;
use std::sync::Wait;

/// A mailbox to a worker. Contracts see it as the tasks that it was given and hasn't answered.
#[derive(Drop)]
pub struct Mailbox<'a, T: Work, G: Gate> {
    ends: Ends<'a, T, G>,
    now: Now<Leave<'a, T, G>>,
}

impl<'a, T: Work, G: Gate> Model for Mailbox<'a, T, G> {
    ghost use Rattle.std.specs.Prelude.{Option, List};
    ghost use Rattle.mp_phase.specs.Lines.{asked_of, side_of, IsLine};

    ghost Value = { Option (List T) };

    ghost view = { λ l. asked_of (λ leave. leave.tasks.items) l.now (side_of l.ends.token) };

    ghost invariant = { λ l. IsLine l.now (side_of l.ends.token) };
}

impl<'a, T: Work, G: Gate> Mailbox<'a, T, G> {
    ghost use Rattle.std.specs.Prelude.{◌≡◌, Some, None, IfOk};
    ghost use Rattle.mp_phase.specs.Phase.{AreDone};
    ghost use Rattle.mp_phase.specs.Lines.{tasks_of};

    /// A mailbox, and the jobs that its worker is to do.
    pub fn new(alloc: Global) -> Result<(Mailbox<'a, T, G>, Receiver<Job<'a, T, G>>), AllocError>
        ensures { IfOk result (λ r. r.0 ≡ None) }
    {
        let (jobs, work) = bounded(alloc, 1)?;
        let (to, answers, token) = bounded_with::<
            Answer<T::Done>,
            Side<T>,
            AnswerProtocol<T>,
            Global,
        >(alloc, 1)?;
        let ends = Ends {
            jobs,
            to,
            answers,
            token,
        };
        Ok((
            Mailbox {
                ends,
                now: Now::Free,
            },
            work,
        ))
    }

    /// Asks for the tasks. If they can't be sent, and if there are none, they are done with the answer.
    pub fn ask<R: Wait>(&mut self, rt: &R, leave: Leave<'a, T, G>)
        requires free { self.old ≡ None }
        ensures { self.new ≡ Some leave.entry.tasks.items }
    {
        if leave.tasks.is_empty() {
            self.now = Now::Here(leave);
            return;
        }
        self.now = match send(rt, &mut self.ends, leave) {
            Ok(()) => Now::Out,
            Err(back) => Now::Here(back),
        };
    }

    /// The results of the tasks. Tasks that couldn't be sent are done here, but not if memory was refused before.
    pub fn answer<R: Wait>(
        &mut self,
        rt: &R,
        alloc: Global,
        refused: bool,
    ) -> Result<Vec<T::Done>, AllocError>
        ensures done { IfOk result (λ dones. AreDone T.gives (tasks_of self.old) dones.items) }
        ensures free { self.new ≡ None }
    {
        match mem::replace(&mut self.now, Now::Free) {
            Now::Free => Ok(Vec::new(alloc)),
            Now::Here(_) if refused => Err(AllocError),
            Now::Here(Leave { gate, tasks }) => run_here(rt, alloc, gate, tasks),
            Now::Out => receive(rt, &mut self.ends),
        }
    }
}
