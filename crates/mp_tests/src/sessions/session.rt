//! Modules pass the gate of a session for each entry of an edit's work.
use crate::making::branches::{BRANCHES, HALF, MODULES, MOST, ONE};
use crate::making::buffers::{BUFFER, SIXTEEN_BUFFERS};
use crate::making::groups::{BOTH_GROUPS, GROUPED_MODULES, TWO_GROUPS};
use crate::making::passage_counter::{PassageCounter, counts};
use crate::making::sessions::{opened, takes};
use crate::making::test_netlist::TestNetlist;
use crate::making::texts::netlist;
use crate::making::two_inputs::{BOTH, DATA, LATER, MODULES_WITH_TWO, TWO_INPUTS};
use mp_phase::Crew;
use mp_session::Session;
use std::alloc::Global;
use std::process::Abort;
use std::sync::Wait;
use std::test::Fail;
use std::thread::Threads;

/// Whether so many modules work up to the horizon after the change, and pass the gate for just the work's entries.
fn passes(
    rt: &(impl Threads + Wait + Sync),
    alloc: Global,
    session: &mut Session<PassageCounter<'_>>,
    counter: PassageCounter<'_>,
    change: &str,
    modules: u32,
) -> bool {
    counter.clear();
    takes(rt, alloc, session, change) && counter.last_passed(session.last_work()) == Some(modules)
}

/// They do so for each of these changes of a netlist, one after the other, by this crew.
fn assert_passed(
    rt: &(impl Abort + Threads + Wait + Sync),
    alloc: Global,
    tried: TestNetlist<'_>,
    crew: Crew,
    changes: &[(&str, u32)],
) -> Result<(), Fail> {
    let TestNetlist(statements, modules, horizon) = tried;
    let counts = counts(alloc, modules, horizon)?;
    let counter = PassageCounter::new(horizon, counts.as_slice());
    let netlist = netlist(alloc, horizon, statements)?;
    let mut session = opened(rt, alloc, netlist, crew, counter)?;
    let mut shown = true;
    for (change, reached) in changes {
        shown &= passes(rt, alloc, &mut session, counter, change, *reached);
    }
    drop(session);
    assert!(rt; shown);
    Ok(())
}

/// They do so by one thread, and by the workers of a crew of four, to whom each module that begins to work is a task.
fn assert_passed_by_all(
    rt: &(impl Abort + Threads + Wait + Sync),
    alloc: Global,
    tried: TestNetlist<'_>,
    changes: &[(&str, u32)],
) -> Result<(), Fail> {
    assert_passed(rt, alloc, tried, Crew::new(1, 64)?, changes)?;
    assert_passed(rt, alloc, tried, Crew::new(4, 1)?, changes)
}

/// The changes reach one module of the five, two of them, and four.
#[test]
fn each_entry_is_passed(rt: HostRuntime) -> Result<(), Fail> {
    let changes = [(ONE, 1), (HALF, 2), (MOST, 4)];
    let tried = TestNetlist(BRANCHES, MODULES, 8);
    assert_passed(&rt, rt.alloc(), tried, Crew::new(2, 2)?, &changes)
}

/// The changes reach both of two parts, which are evaluated again by a thread each.
#[test]
fn parts_pass_each_entry(rt: HostRuntime) -> Result<(), Fail> {
    let changes = [(BOTH_GROUPS, 2), (MOST, 4)];
    let tried = TestNetlist(TWO_GROUPS, GROUPED_MODULES, 8);
    assert_passed(&rt, rt.alloc(), tried, Crew::new(2, 2)?, &changes)
}

/// The changes reach one or two modules of sixteen, so these are evaluated again in a region, without the others. The last one leaves none of the two
/// the least delay, so a third one is in their region that doesn't work.
#[test]
fn region_passes_each_entry(rt: HostRuntime) -> Result<(), Fail> {
    let changes = [
        ("stim a3 1=1", 1),
        ("stim a3 1=1 5=0", 1),
        ("wire z 1 0", 0),
        ("batch delay b3 0 3 ; delay b8 0 3", 2),
    ];
    let tried = TestNetlist(SIXTEEN_BUFFERS, 16, 8);
    assert_passed(&rt, rt.alloc(), tried, Crew::new(2, 2)?, &changes)
}

/// Both inputs of a module change in one unit. They hear later, or have data.
#[test]
fn modules_with_two_inputs_pass_each_entry(rt: HostRuntime) -> Result<(), Fail> {
    let changes = [(BOTH, 1), (DATA, 1), (LATER, 2)];
    let tried = TestNetlist(TWO_INPUTS, MODULES_WITH_TWO, 12);
    assert_passed_by_all(&rt, rt.alloc(), tried, &changes)
}

/// What the buffer hears is another in two blocks, then before the border between them alone, then a little later behind it, so that the buffer
/// resumes there, and then over it.
#[test]
fn modules_at_a_checkpoint_pass_each_entry(rt: HostRuntime) -> Result<(), Fail> {
    let changes = [
        ("stim a 100=1 200=0 1050=1", 1),
        ("stim a 1050=1", 0),
        ("stim a 1060=1", 1),
        ("stim a 1000=1", 1),
    ];
    let tried = TestNetlist(BUFFER, 1, 1100);
    assert_passed_by_all(&rt, rt.alloc(), tried, &changes)
}
