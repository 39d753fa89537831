//! A phase in which memory runs out, and the one behind it.
use mp_netlist::ModuleId;
use mp_phase::{Crew, Gate, OpenGate, Plan, Work, Workers};
use std::alloc::{AllocError, Global};
use std::sync::Wait;
use std::test::Fail;
use std::thread::Threads;

/// A number that is to be doubled. It passes the gate as the module of that number. There is no memory for 13.
#[derive(Drop)]
struct Number {
    value: u32,
}

impl Work for Number {
    type Done = u32;

    ghost gives = { λ number done. Unit {0} };

    ghost enters = { λ number m from to. Unit {0} };

    ghost passes = { λ number m from to. ⊥ };

    fn work<R: Wait, G: Gate>(self, rt: &R, _alloc: Global, gate: &G) -> Result<u32, AllocError> {
        gate.enter(rt, ModuleId(self.value), 0, 1);
        if self.value == 13 {
            return Err(AllocError);
        }
        Ok(self.value.wrapping_mul(2))
    }
}

/// Numbers in two phases by the same workers.
#[derive(Drop)]
struct Doubling {
    first: Vec<Number>,
    second: Vec<Number>,
}

impl Plan for Doubling {
    ghost use Rattle.mp_phase.specs.Allowed.{IsOpen};

    type Task = Number;

    type Outcome = (bool, Result<Vec<u32>, AllocError>);

    ghost ends_in = { λ plan outcome. Unit {0} };

    ghost needs = { λ plan may. IsOpen may };

    fn carry_out<R: Wait, G: Gate>(
        self,
        rt: &R,
        workers: &mut Workers<'_, Number, G>,
    ) -> (bool, Result<Vec<u32>, AllocError>) {
        let Doubling { first, second } = self;
        let refused = workers.run(rt, first).is_err();
        (refused, workers.run(rt, second))
    }
}

fn numbers(alloc: Global, values: &[u32]) -> Result<Vec<Number>, AllocError> {
    let mut all = Vec::new(alloc);
    for value in values {
        all.push(Number { value: *value })?;
    }
    Ok(all)
}

fn short_and_whole(alloc: Global, short: &[u32]) -> Result<Doubling, AllocError> {
    let first = numbers(alloc, short)?;
    let second = numbers(alloc, &[1, 2, 3, 4, 5, 6, 7])?;
    Ok(Doubling { first, second })
}

/// Memory is wanting in a phase: the call says so, and the next phase has its own answers.
fn goes_on(rt: &(impl Threads + Wait + Sync), alloc: Global, short: &[u32]) -> Result<bool, Fail> {
    let plan = short_and_whole(alloc, short)?;
    let (refused, doubled) = Crew::new(3, 1)?.with_workers(rt, alloc, &OpenGate, plan)?;
    Ok(refused && doubled?.as_slice() == [2, 4, 6, 8, 10, 12, 14].as_slice())
}

/// It may be wanting anywhere.
#[test]
fn goes_on_after_want_of_memory(rt: HostRuntime) -> Result<(), Fail> {
    for short in [[13, 2, 3], [1, 13, 3], [1, 2, 13]] {
        assert!(rt; goes_on(&rt, rt.alloc(), &short)?);
    }
    Ok(())
}
