//! Modules work at the same time: those that a change of the whole netlist makes join in one unit, and those of two parts.
ghost use Rattle.mp_partition.specs.runs.Runs.{IsRun};
ghost use Rattle.mp_depend.specs.work.Revisions.{IsRevision};

use super::changing::changed;
use crate::making::buffers::{FOUR_BUFFERS, TWO_BUFFERS};
use crate::making::groups::{BOTH_GROUPS, TWO_GROUPS};
use crate::making::meeting::Meeting;
use crate::making::texts::netlist;
use mp_engine::{Crew, OpenGate, evaluate_here};
use mp_netlist::Netlist;
use mp_partition::Run;
use mp_redo::{RerunContext, redo, rerun};
use std::alloc::{AllocError, Global};
use std::process::Abort;
use std::sync::Wait;
use std::test::Fail;
use std::thread::Threads;

/// How a netlist is evaluated again.
#[derive(Clone, Copy)]
enum Way {
    /// As a whole.
    Whole,
    /// Part by part, if it falls into parts.
    Parts,
}

/// The first wire of a netlist rises.
const RISE: &str = "stim a 2=1";

/// Evaluates a netlist again after a change.
fn redone<R: Threads + Wait + Sync>(
    context: &RerunContext<'_, R, Meeting>,
    way: Way,
    old: &Netlist,
    run: &Run,
    new: &Netlist,
) -> Result<(), AllocError>
    requires revision { IsRevision old.now new.now }
    requires run { IsRun old.now run.now }
{
    match way {
        Way::Whole => drop(rerun::redo(context, old, run, new)?),
        Way::Parts => drop(redo(context, old, run, new)?),
    }
    Ok(())
}

/// Evaluates the netlist again after the change that a line states.
fn redone_after<R: Threads + Wait + Sync>(
    context: &RerunContext<'_, R, Meeting>,
    way: Way,
    old: &Netlist,
    change: &str,
) -> Result<(), Fail> {
    let run = evaluate_here(context.rt, context.alloc, old, &OpenGate)?;
    let new = changed(context.alloc, old, change)?;
    let ended = redone(context, way, old, &run, &new);
    drop(run);
    drop(new);
    Ok(ended?)
}

/// As many modules as there are threads pass the gate for a span from time 0, and all see each other.
fn assert_meeting(
    rt: &(impl Abort + Threads + Wait + Sync),
    alloc: Global,
    count: u32,
    way: Way,
    statements: &str,
    change: &str,
) -> Result<(), Fail> {
    let crew = Crew::new(count, 1)?;
    let gate = Meeting::of(u64::from(count), 0);
    let context = RerunContext {
        rt,
        alloc,
        crew: &crew,
        gate: &gate,
    };
    let old = netlist(alloc, 20, statements)?;
    let ended = redone_after(&context, way, &old, change);
    drop(old);
    ended?;
    assert!(rt; gate.is_held());
    Ok(())
}

#[test]
fn two_joining_modules_meet(rt: HostRuntime) -> Result<(), Fail> {
    assert_meeting(&rt, rt.alloc(), 2, Way::Whole, TWO_BUFFERS, RISE)
}

#[test]
fn four_joining_modules_meet(rt: HostRuntime) -> Result<(), Fail> {
    assert_meeting(&rt, rt.alloc(), 4, Way::Whole, FOUR_BUFFERS, RISE)
}

/// A module of each part works from time 0 on. One thread alone would let them pass the gate one after the other.
#[test]
fn modules_of_two_parts_meet(rt: HostRuntime) -> Result<(), Fail> {
    assert_meeting(&rt, rt.alloc(), 2, Way::Parts, TWO_GROUPS, BOTH_GROUPS)
}
