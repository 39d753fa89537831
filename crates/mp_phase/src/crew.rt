//! A number of workers.

use crate::bad_count::BadCount;
use crate::gate::Gate;
use crate::one_phase::OnePhase;
use crate::plan::Plan;
use crate::work::Work;
use crate::worker::{LOOKS, work};
use crate::workers::Workers;
use std::alloc::{AllocError, Global};
use std::sync::Wait;
use std::thread;
use std::thread::Threads;

/// How many threads do the tasks, the calling one included, and how much work is the least that is shared out.
#[derive(Clone, Copy, PartialEq, Eq)]
pub struct Crew {
    count: u32,
    least: u32,
}

impl Crew {
    ghost use Rattle.std.specs.Prelude.{◌≡◌, ◌<◌, ◌≤◌, IfOk, IfErr};
    ghost use Rattle.mp_phase.specs.Allowed.{AreAllowed};
    ghost use Rattle.mp_phase.specs.Phase.{AreDone};

    /// A crew of `count` threads, which shares out tasks that weigh at least `least` together. `BadCount` comes if `count` isn't 1 to 16, or `least`
    /// isn't 1 to 4,096.
    pub fn new(count: u32, least: u32) -> Result<Self, BadCount>
        ensures ok { IfOk result (λ crew. (crew.count ≡ count) × (crew.least ≡ least)) }
        ensures range { IfOk result (λ crew. (0 < count) × (count ≤ 16) × (0 < least) × (least ≤ 4096)) }
        ensures err { IfErr result (λ e. ¬ ((0 < count) × (count ≤ 16) × (0 < least) × (least ≤ 4096))) }
    {
        if count == 0 || count > 16 || least == 0 || least > 4096 {
            return Err(BadCount);
        }
        Ok(Crew { count, least })
    }

    /// How many threads do the tasks, the calling one included.
    pub fn count(&self) -> u32
        ensures { result ≡ self.now.count }
    {
        self.count
    }

    /// How much work is the least that is shared out.
    pub fn least(&self) -> u32
        ensures { result ≡ self.now.least }
    {
        self.least
    }

    /// Runs the plan with workers that wait for tasks until it ends. If memory is refused, the plan isn't begun. A worker whose thread can't be
    /// started has its share done on the calling thread.
    pub fn with_workers<R: Threads + Wait + Sync, G: Gate + Sync, P: Plan>(
        &self,
        rt: &R,
        alloc: Global,
        gate: &G,
        plan: P,
    ) -> Result<P::Outcome, AllocError>
    where
        P::Task: Send,
        <P::Task as Work>::Done: Send,
        requires allowed { P.needs plan (G.may gate.now) }
        ensures { IfOk result (λ outcome. P.ends_in plan outcome) }
    {
        let count = self.count;
        let least = self.least;
        let lookers = if count > 1 { lookers(rt) } else { 0 };
        thread::scope(
            thread::scope_env(),
            rt,
            |scope| -> Result<P::Outcome, AllocError>
                requires allowed { P.needs plan (G.may gate.now) }
                ensures { IfOk result (λ outcome. P.ends_in plan outcome) }
            {
                let mut workers = Workers::none(alloc, gate, least);
                for place in 1..count {
                    let jobs = workers.add()?;
                    let looks = if (place as usize) < lookers { LOOKS } else { 0 };
                    let _ = scope.spawn(move || work(rt, alloc, &jobs, looks));
                }
                let outcome = plan.carry_out(rt, &mut workers);
                drop(workers);
                Ok(outcome)
            },
        )
    }

    /// Does the tasks, with a share for each worker and for the calling thread, and returns their results in order. The workers are started for this
    /// call.
    pub fn run<R: Threads + Wait + Sync, G: Gate + Sync, T: Work + Send>(
        &self,
        rt: &R,
        alloc: Global,
        gate: &G,
        tasks: Vec<T>,
    ) -> Result<Vec<T::Done>, AllocError>
    where
        T::Done: Send,
        requires allowed { AreAllowed T.enters (G.may gate.now) tasks.items }
        ensures { IfOk result (λ dones. AreDone T.gives tasks.items dones.items) }
    {
        self.with_workers(rt, alloc, gate, OnePhase { tasks })?
    }
}

/// How many threads may look for what comes before they sleep: one for each processor.
pub fn lookers<R: Threads>(rt: &R) -> usize {
    match thread::available_parallelism(rt) {
        Ok(processors) => processors.get(),
        Err(_) => 1,
    }
}
