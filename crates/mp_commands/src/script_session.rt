//! A netlist with its waves, which a script edits.
ghost use Rattle.std.specs.Prelude.{◌≡◌};

use crate::answers::Snapshot;
use crate::sessions::Sessions;
use mp_netlist::{Edit, EditError, Netlist};
use mp_phase::Crew;
use mp_version::EditSession;
use std::alloc::{AllocError, Global};
use std::marker::Model;
use std::sync::Wait;
use std::thread::Threads;

/// A session: a netlist, its waves, the edits that led to it, and what was evaluated for the last of them.
#[derive(Drop)]
pub struct ScriptSession<P: Sessions> {
    session: P::Session,
    crew: Crew,
}

impl<P: Sessions> Model for ScriptSession<P> {
    ghost use Rattle.mp_commands.specs.Names.{Kept, kept_at};

    ghost Value = { Kept };

    ghost view = { λ script. kept_at (P.Session.story script.session) (P.work script.session) };
}

impl<P: Sessions> ScriptSession<P> {
    ghost use Rattle.std.specs.Prelude.{◌≡◌, Ok, IfOk, IfErr, OnOk, OnErr, length};
    ghost use Rattle.mp_commands.specs.Names.{RefusedBy};
    ghost use Rattle.mp_commands.specs.ScriptSessions.{opened, judged, IsOneMore};

    /// The netlist before the first edit.
    pub fn new<R: Threads + Wait + Sync>(
        sessions: &P,
        rt: &R,
        alloc: Global,
        netlist: &Netlist,
        crew: Crew,
    ) -> Result<Self, AllocError>
        ensures { IfOk result (λ script. script ≡ opened netlist.now) }
    {
        Ok(ScriptSession {
            session: sessions.open(rt, alloc, netlist, crew)?,
            crew,
        })
    }

    /// The netlist before the first edit, as `new`. It is let go, since the session has a copy.
    pub(crate) fn of_netlist<R: Threads + Wait + Sync>(
        sessions: &P,
        rt: &R,
        alloc: Global,
        netlist: Netlist,
        crew: Crew,
    ) -> Result<Self, AllocError>
        ensures { IfOk result (λ script. script ≡ opened netlist) }
    {
        let script = ScriptSession::new(sessions, rt, alloc, &netlist, crew);
        drop(netlist);
        script
    }

    /// What there is after the accepted edits.
    pub fn snapshot(&self) -> Snapshot<'_>
        ensures { result ≡ self.now }
    {
        Snapshot {
            version: self.session.version(),
            work: P::last_work(&self.session),
            crew: self.crew,
        }
    }

    /// Makes the edit, and returns the number of accepted edits. It is refused for the first check that it fails, for a full history or for lack of
    /// memory; a refused edit changes neither the netlist nor its waves and work. A batch counts as one.
    pub fn change<R: Threads + Wait + Sync>(&mut self, rt: &R, edit: Edit) -> Result<u32, EditError>
        ensures ok { OnOk result (judged self.old edit ≡ Ok self.new.netlist) }
        ensures one_more { OnOk result (IsOneMore self.old edit self.new) }
        ensures count { IfOk result (λ accepted. accepted ≡ length self.new.edits) }
        ensures refused { IfErr result (RefusedBy edit (judged self.old edit)) }
        ensures err { OnErr result (self.new ≡ self.old) }
    {
        P::take(&mut self.session, rt, edit)?;
        Ok(self.session.version().number())
    }
}
