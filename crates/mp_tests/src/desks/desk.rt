//! Designers and viewers at one desk.
mod closing;

use crate::making::sessions::{opened, takes};
use crate::making::texts::{edit, netlist};
use mp_desk::{Designer, Desk, DeskName, ReadError, Unkept, Viewer};
use mp_phase::{Crew, OpenGate};
use mp_session::Session;
use std::alloc::Global;
use std::sync::Wait;
use std::test::Fail;
use std::thread::Threads;

/// A session of two wires with an edit more.
fn edited(rt: &(impl Threads + Wait + Sync), alloc: Global) -> Result<Session<OpenGate>, Fail> {
    let crew = Crew::new(2, 1)?;
    let netlist = netlist(alloc, 20, "wire a 1 0\nwire b 1 0\n")?;
    let mut session = opened(rt, alloc, netlist, crew, OpenGate)?;
    if takes(rt, alloc, &mut session, "wire c 1 0") {
        Ok(session)
    } else {
        drop(session);
        Err("the edit was refused".into())
    }
}

/// Whether the edit that a line states is accepted.
fn submits<L: DeskName, R: Threads + Wait + Sync + Drop>(
    rt: &R,
    alloc: Global,
    desk: &Desk<Session<OpenGate>, Unkept, L, R>,
    me: &mut Designer<L>,
    line: &str,
) -> bool {
    match edit(alloc, line) {
        Some(edit) => desk.submit(rt, me, edit).err().is_none(),
        None => false,
    }
}

/// The number of the version that the viewer reads.
fn number_read<L: DeskName>(viewer: &mut Viewer<L>) -> Option<u32> {
    match viewer.read() {
        Ok(read) => Some(read.version.number()),
        Err(_) => None,
    }
}

/// Whether the desk of the viewers is closed.
fn are_shut<L: DeskName>(viewers: &mut [Viewer<L>]) -> bool {
    for viewer in viewers {
        if viewer.read().err() != Some(ReadError::Closed) {
            return false;
        }
    }
    true
}
