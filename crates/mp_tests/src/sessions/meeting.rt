//! Modules work at the same time for an edit of a session: those of two parts, and those that join in a region.
use crate::making::groups::{BOTH_GROUPS, TWO_GROUPS, WIDE_GROUPS};
use crate::making::meeting::{LentMeeting, Meeting};
use crate::making::sessions::{opened, takes};
use crate::making::texts::netlist;
use mp_phase::Crew;
use std::alloc::Global;
use std::process::Abort;
use std::sync::Wait;
use std::test::Fail;
use std::thread::Threads;

/// When a session of this netlist takes a change, the calls that are to meet see each other.
fn assert_meeting(
    rt: &(impl Abort + Threads + Wait + Sync),
    alloc: Global,
    statements: &str,
    crew: Crew,
    gate: &Meeting,
    change: &str,
) -> Result<(), Fail> {
    let netlist = netlist(alloc, 2000, statements)?;
    let lent = LentMeeting { meeting: gate };
    let mut session = opened(rt, alloc, netlist, crew, lent)?;
    let taken = takes(rt, alloc, &mut session, change);
    drop(session);
    let shown = taken && gate.is_held();
    assert!(rt; shown);
    Ok(())
}

/// A module of each part works in the window that begins at 2. One thread alone would let them pass the gate one after the other.
#[test]
fn modules_of_two_parts_meet(rt: HostRuntime) -> Result<(), Fail> {
    let gate = Meeting::of(2, 2);
    let crew = Crew::new(2, 1)?;
    assert_meeting(&rt, rt.alloc(), TWO_GROUPS, crew, &gate, BOTH_GROUPS)
}

/// Three modules join in one unit of a region, each on a thread of the crew. Evaluated again outside a region, they would be in two parts with a thread
/// each.
#[test]
fn modules_of_a_region_meet(rt: HostRuntime) -> Result<(), Fail> {
    let gate = Meeting::of(3, 1024);
    let crew = Crew::new(3, 1)?;
    assert_meeting(&rt, rt.alloc(), WIDE_GROUPS, crew, &gate, "stim a 1100=1")
}
