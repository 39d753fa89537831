//! What a worker's thread does.

use crate::answer_protocol::Replies;
use crate::gate::Gate;
use crate::job::Job;
use crate::leave::Leave;
use crate::share::run_here;
use crate::work::Work;
use crossbeam_channel::{Receiver, TryRecvError};
use std::alloc::Global;
use std::sync::Wait;
use std::thread;

/// Does a job and answers it. False if nobody takes the answer.
fn answer<T: Work, R: Wait, G: Gate>(rt: &R, alloc: Global, job: Job<'_, T, G>) -> bool {
    let Job {
        leave,
        to,
        mut token,
    } = job;
    let Leave { gate, tasks } = leave;
    let dones = run_here(rt, alloc, gate, tasks);
    to.send_as::<Replies, R>(rt, &mut token, dones).is_ok()
}

/// How often a thread looks for what comes before it sleeps. At each look others go first.
pub const LOOKS: u32 = 500;

/// The next job, and nothing if there are no more. It is looked for so often before the thread sleeps.
fn next<'a, T: Work, R: Wait, G: Gate>(
    rt: &R,
    jobs: &Receiver<Job<'a, T, G>>,
    looks: u32,
) -> Option<Job<'a, T, G>> {
    for _ in 0..looks {
        match jobs.try_recv(rt) {
            Ok(job) => return Some(job),
            Err(TryRecvError::Disconnected) => return None,
            Err(TryRecvError::Empty) => thread::yield_now(),
        }
    }
    jobs.recv(rt).ok()
}

/// Does jobs until there are no more.
pub fn work<T: Work, R: Wait, G: Gate>(
    rt: &R,
    alloc: Global,
    jobs: &Receiver<Job<'_, T, G>>,
    looks: u32,
) {
    for _ in rt.forever() {
        let Some(job) = next(rt, jobs, looks) else {
            break;
        };
        if !answer(rt, alloc, job) {
            break;
        }
    }
}
