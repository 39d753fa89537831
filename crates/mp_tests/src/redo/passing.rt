//! A module passes the gate once for each entry of the work, and for nothing else.
ghost use Rattle.mp_partition.specs.runs.Runs.{IsRun};
ghost use Rattle.mp_depend.specs.work.Revisions.{IsRevision};

use super::changing::changed;
use crate::making::branches::{BRANCHES, HALF, MODULES, MOST, ONE, SOON};
use crate::making::buffers::BUFFER;
use crate::making::groups::{BOTH_GROUPS, GROUPED_MODULES, TWO_GROUPS};
use crate::making::passage_counter::{PassageCounter, counts};
use crate::making::test_netlist::TestNetlist;
use crate::making::texts::netlist;
use crate::making::two_inputs::{BOTH, DATA, LATER, MODULES_WITH_TWO, TWO_INPUTS};
use mp_engine::{Crew, OpenGate, evaluate_here};
use mp_netlist::Netlist;
use mp_partition::Run;
use mp_redo::{RerunContext, redo};
use std::alloc::Global;
use std::process::Abort;
use std::sync::Wait;
use std::test::Fail;
use std::thread::Threads;

/// The line that states a change of a netlist, and how many modules work after it up to the horizon.
#[derive(Clone, Copy)]
struct Reach<'a>(&'a str, u32);

/// So many modules work, and pass the gate for just the work's entries.
fn assert_passed<R: Abort + Threads + Wait + Sync>(
    context: &RerunContext<'_, R, PassageCounter<'_>>,
    old: &Netlist,
    run: &Run,
    new: &Netlist,
    modules: u32,
) -> Result<(), Fail>
    requires revision { IsRevision old.now new.now }
    requires run { IsRun old.now run.now }
{
    let (found, work) = redo(context, old, run, new)?;
    let count = context.gate.last_passed(&work);
    drop(work);
    drop(found);
    let rt = context.rt;
    assert!(rt; count == Some(modules));
    Ok(())
}

/// They do so for each change of the netlist.
fn assert_each<R: Abort + Threads + Wait + Sync>(
    context: &RerunContext<'_, R, PassageCounter<'_>>,
    old: &Netlist,
    reaches: &[Reach<'_>],
) -> Result<(), Fail> {
    let run = evaluate_here(context.rt, context.alloc, old, &OpenGate)?;
    for Reach(change, modules) in reaches {
        let new = changed(context.alloc, old, change)?;
        assert_passed(context, old, &run, &new, *modules)?;
    }
    Ok(())
}

/// They do so in this netlist, by this crew.
fn assert_exact(
    rt: &(impl Abort + Threads + Wait + Sync),
    alloc: Global,
    tried: TestNetlist<'_>,
    crew: &Crew,
    reaches: &[Reach<'_>],
) -> Result<(), Fail> {
    let TestNetlist(statements, modules, horizon) = tried;
    let counts = counts(alloc, modules, horizon)?;
    let counter = PassageCounter::new(horizon, counts.as_slice());
    let old = netlist(alloc, horizon, statements)?;
    let context = RerunContext {
        rt,
        alloc,
        crew,
        gate: &counter,
    };
    assert_each(&context, &old, reaches)
}

/// They do so by one thread, and by the workers of a crew of four, to whom each module that begins to work is a task.
fn assert_exact_by_all(
    rt: &(impl Abort + Threads + Wait + Sync),
    alloc: Global,
    tried: TestNetlist<'_>,
    reaches: &[Reach<'_>],
) -> Result<(), Fail> {
    assert_exact(rt, alloc, tried, &Crew::new(1, 64)?, reaches)?;
    assert_exact(rt, alloc, tried, &Crew::new(4, 1)?, reaches)
}

/// The changes reach one module of the five, two of them, and four.
#[test]
fn one_thread_passes_each_entry(rt: HostRuntime) -> Result<(), Fail> {
    let reaches = [Reach(ONE, 1), Reach(HALF, 2), Reach(MOST, 4)];
    let tried = TestNetlist(BRANCHES, MODULES, 8);
    assert_exact(&rt, rt.alloc(), tried, &Crew::new(1, 64)?, &reaches)
}

/// Two modules begin to work in the same unit, and the workers of the crew answer for them.
#[test]
fn workers_pass_each_entry(rt: HostRuntime) -> Result<(), Fail> {
    let reaches = [Reach(ONE, 1), Reach(SOON, 2), Reach(MOST, 4)];
    let tried = TestNetlist(BRANCHES, MODULES, 4);
    assert_exact(&rt, rt.alloc(), tried, &Crew::new(2, 2)?, &reaches)
}

/// Each of two parts is evaluated again on a thread of its own: all of their modules, and all that read no other.
#[test]
fn parts_pass_each_entry(rt: HostRuntime) -> Result<(), Fail> {
    let reaches = [Reach(MOST, 4), Reach(BOTH_GROUPS, 2)];
    let tried = TestNetlist(TWO_GROUPS, GROUPED_MODULES, 8);
    assert_exact(&rt, rt.alloc(), tried, &Crew::new(2, 2)?, &reaches)
}

/// Both inputs of a module change in one unit. They hear later, or have data.
#[test]
fn modules_with_two_inputs_pass_each_entry(rt: HostRuntime) -> Result<(), Fail> {
    let reaches = [Reach(BOTH, 1), Reach(DATA, 1), Reach(LATER, 2)];
    let tried = TestNetlist(TWO_INPUTS, MODULES_WITH_TWO, 12);
    assert_exact_by_all(&rt, rt.alloc(), tried, &reaches)
}

/// What the buffer hears ends as before within its first block, and is something else again in the next one, whose begin is at 1024; or it is something
/// else over that border; or from a time after the border on, so that the buffer resumes there.
#[test]
fn modules_at_a_checkpoint_pass_each_entry(rt: HostRuntime) -> Result<(), Fail> {
    let reaches = [
        Reach("stim a 100=1 200=0 1050=1", 1),
        Reach("stim a 1000=1", 1),
        Reach("stim a 1050=1", 1),
    ];
    let tried = TestNetlist(BUFFER, 1, 1100);
    assert_exact_by_all(&rt, rt.alloc(), tried, &reaches)
}
