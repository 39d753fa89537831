//! Modules of small netlists answer at the same time.
use crate::making::buffers::TWO_BUFFERS;
use crate::making::meeting::Meeting;
use crate::making::texts::netlist;
use mp_engine::{Crew, evaluate};
use std::alloc::Global;
use std::process::Abort;
use std::sync::Wait;
use std::test::Fail;
use std::thread::Threads;

/// Two inverters that read each other's output: both answer at each even time.
const CONNECTED: &str = "wire y 1 0
wire z 1 0
module y NOT : z > y/2
module z NOT : y > z/2
";

/// The two modules of a netlist are answered by two workers at the same time.
fn assert_meeting<R: Abort + Threads + Wait + Sync>(
    rt: &R,
    alloc: Global,
    statements: &str,
    time: u32,
) -> Result<(), Fail> {
    let crew = Crew::new(2, 1)?;
    let gate = Meeting::of(2, time);
    let netlist = netlist(alloc, 20, statements)?;
    let run = evaluate(rt, alloc, &netlist, &crew, &gate);
    drop(netlist);
    drop(run?);
    assert!(rt; gate.is_held());
    Ok(())
}

#[test]
fn two_workers_meet(rt: HostRuntime) -> Result<(), Fail> {
    assert_meeting(&rt, rt.alloc(), TWO_BUFFERS, 0)
}

/// They answer window by window, after one thread has looked at the first units alone.
#[test]
fn connected_modules_meet(rt: HostRuntime) -> Result<(), Fail> {
    assert_meeting(&rt, rt.alloc(), CONNECTED, 6)
}
