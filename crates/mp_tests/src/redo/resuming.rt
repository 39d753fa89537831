//! A module that is reached late works from the last checkpoint not after that time.
use crate::making::buffers::BUFFER;
use crate::making::texts::netlist;
use mp_depend::block_of;
use mp_engine::{OpenGate, evaluate_here};
use mp_netlist::ModuleId;
use mp_partition::Run;
use std::process::Abort;
use std::test::Fail;

/// The last checkpoint not after a time, at which the run has the buffer's state.
fn assert_last(rt: &impl Abort, run: &Run, time: u32, checkpoint: u32) {
    assert!(rt; block_of(2000, time) == checkpoint);
    assert!(rt; run.checkpoint(ModuleId(0), checkpoint).is_some());
}

#[test]
fn checkpoint_resume(rt: HostRuntime) -> Result<(), Fail> {
    let netlist = netlist(rt.alloc(), 2000, BUFFER)?;
    let run = evaluate_here(&rt, rt.alloc(), &netlist, &OpenGate);
    drop(netlist);
    let run = run?;
    assert_last(&rt, &run, 1023, 0);
    assert_last(&rt, &run, 1024, 1024);
    assert_last(&rt, &run, 1500, 1024);
    Ok(())
}
