//! Sessions of small netlists.
ghost use Rattle.mp_phase.specs.Allowed.{IsOpen};

use crate::making::texts::edit;
use mp_netlist::Netlist;
use mp_phase::{Crew, Gate};
use mp_session::Session;
use std::alloc::{AllocError, Global};
use std::sync::Wait;
use std::thread::Threads;

/// A session of a netlist, which is let go.
pub fn opened<G: Gate + Sync>(
    rt: &(impl Threads + Wait + Sync),
    alloc: Global,
    netlist: Netlist,
    crew: Crew,
    gate: G,
) -> Result<Session<G>, AllocError>
    requires { IsOpen (G.may gate) }
{
    let session = Session::open(rt, alloc, &netlist, crew, gate);
    drop(netlist);
    session
}

/// Whether the session takes the edit that a line states.
pub fn takes<G: Gate + Sync>(
    rt: &(impl Threads + Wait + Sync),
    alloc: Global,
    session: &mut Session<G>,
    line: &str,
) -> bool {
    match edit(alloc, line) {
        Some(edit) => session.apply(rt, edit).is_ok(),
        None => false,
    }
}
