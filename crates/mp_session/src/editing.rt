//! A session whose gate is open, as those see it who only edit.
use crate::prepared::Prepared;
use crate::session::Session;
use mp_netlist::{Edit, EditError};
use mp_phase::OpenGate;
use mp_version::{EditSession, Version};
use std::sync::{Arc, Wait};
use std::thread::Threads;

impl EditSession for Session<OpenGate> {
    type Prepared = Prepared;

    ghost story = { λ session. session.story };

    ghost step = { λ prepared. prepared };

    fn version(&self) -> &Arc<Version> {
        Session::version(self)
    }

    fn next_version(prepared: &Prepared) -> &Arc<Version> {
        prepared.version()
    }

    fn edit(prepared: &Prepared) -> &Edit {
        prepared.edit()
    }

    fn prepare<R: Threads + Wait + Sync>(&self, rt: &R, edit: Edit) -> Result<Prepared, EditError> {
        Session::prepare(self, rt, edit)
    }

    fn commit(&mut self, prepared: Prepared) {
        Session::commit(self, prepared);
    }
}
