//! The sessions of this program.
use mp_commands::Sessions;
use mp_depend::Work;
use mp_desk::DeskSize;
use mp_meeting::{DeskOutcome, MeetingFault, meet};
use mp_netlist::{Edit, EditError, Netlist};
use mp_phase::{Crew, OpenGate};
use mp_session::Session;
use std::alloc::{AllocError, Global};
use std::sync::Wait;
use std::thread::Threads;

/// Sessions in which no module waits.
#[derive(Drop)]
pub(crate) struct OpenSessions;

impl Sessions for OpenSessions {
    type Session = Session<OpenGate>;

    ghost work = { λ session. session.last_work };

    fn open<R: Threads + Wait + Sync>(
        &self,
        rt: &R,
        alloc: Global,
        netlist: &Netlist,
        crew: Crew,
    ) -> Result<Session<OpenGate>, AllocError> {
        Session::open(rt, alloc, netlist, crew, OpenGate)
    }

    fn last_work(session: &Session<OpenGate>) -> &Work {
        session.last_work()
    }

    fn take<R: Threads + Wait + Sync>(
        session: &mut Session<OpenGate>,
        rt: &R,
        edit: Edit,
    ) -> Result<(), EditError> {
        session.apply(rt, edit)
    }

    fn meet<R: Threads + Wait + Sync>(
        rt: &R,
        alloc: Global,
        session: Session<OpenGate>,
        blocks: &[&[u8]],
        size: DeskSize,
    ) -> Result<DeskOutcome<Session<OpenGate>>, MeetingFault> {
        meet(rt, alloc, session, blocks, size)
    }
}
