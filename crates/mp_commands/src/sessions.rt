//! How a command gets a session, and edits it.
ghost use Rattle.std.specs.Prelude.{◌≡◌, List, [], Ok, IfOk, IfErr, OnOk, OnErr, length, vec_len};
ghost use Rattle.std.specs.Thread.{IsSync};
ghost use Rattle.mp_depend.specs.declared.work.work_entry.WorkEntry.{WorkEntry};
ghost use Rattle.mp_commands.specs.Names.{RefusedBy, lines_of_each, opening, one_more, present, judged, IsWork, IsMeeting};

use mp_depend::Work;
use mp_desk::DeskSize;
use mp_meeting::{DeskOutcome, MeetingFault};
use mp_netlist::{Edit, EditError, Netlist};
use mp_phase::Crew;
use mp_version::EditSession;
use std::alloc::{AllocError, Global};
use std::sync::Wait;
use std::thread::Threads;

/// Sessions of one type: how one is opened, and how a script or a meeting edits it. The clauses `shared` say what the bound `Sync` says: in a
/// trait the prover asks for both.
pub trait Sessions {
    /// A netlist that is edited.
    type Session: EditSession;

    // What was evaluated for the last edit that was accepted.
    ghost work: { Self.Session → List WorkEntry };

    /// A session on a copy of this netlist, with no edits. It may wait, as an evaluation may.
    fn open<R: Threads + Wait + Sync>(
        &self,
        rt: &R,
        alloc: Global,
        netlist: &Netlist,
        crew: Crew,
    ) -> Result<Self::Session, AllocError>
        requires shared { IsSync R.row }
        ensures story { IfOk result (λ session. Self.Session.story session ≡ opening netlist.now) }
        ensures work { IfOk result (λ session. work session ≡ []) };

    /// The work of the last edit that was accepted, and none before the first.
    fn last_work(session: &Self::Session) -> &Work
        ensures { result.now ≡ work session.now };

    /// Judges the edit after those that were accepted, as `prepare` does, and makes it: its work is then the last. A refused edit changes
    /// nothing.
    fn take<R: Threads + Wait + Sync>(
        session: &mut Self::Session,
        rt: &R,
        edit: Edit,
    ) -> Result<(), EditError>
        requires shared { IsSync R.row }
        ensures story { OnOk result (Self.Session.story session.new ≡ one_more (Self.Session.story session.old) edit) }
        ensures accepted { OnOk result (judged (Self.Session.story session.old) edit ≡ Ok (present (Self.Session.story session.new))) }
        ensures work { OnOk result (IsWork (present (Self.Session.story session.old)) (present (Self.Session.story session.new)) (work session.new)) }
        ensures refused { IfErr result (RefusedBy edit (judged (Self.Session.story session.old) edit)) }
        ensures err { OnErr result (session.new ≡ session.old) };

    /// Lets a designer for each block submit its lines while viewers read, as `meet` of `mp_meeting` does. It is a method of this trait since a command
    /// may send only a session whose type it knows to other threads.
    fn meet<R: Threads + Wait + Sync>(
        rt: &R,
        alloc: Global,
        session: Self::Session,
        blocks: &[&[u8]],
        size: DeskSize,
    ) -> Result<DeskOutcome<Self::Session>, MeetingFault>
        requires shared { IsSync R.row }
        requires fresh { Self.Session.story session ≡ opening (Self.Session.story session).base }
        requires designers { size.designers ≡ length blocks.now }
        ensures met { IfOk result (λ met. IsMeeting (Self.Session.story session).base (lines_of_each blocks.now) (Self.Session.story met.session) met.tallies.items met.numbers.items) }
        ensures viewers { IfOk result (λ met. vec_len met.numbers ≡ size.viewers) };
}

/// A session on this netlist, with no edits. The netlist is let go, since the session has a copy.
pub(crate) fn open_session<P: Sessions, R: Threads + Wait + Sync>(
    sessions: &P,
    rt: &R,
    alloc: Global,
    netlist: Netlist,
    crew: Crew,
) -> Result<P::Session, AllocError>
    ensures story { IfOk result (λ session. P.Session.story session ≡ opening netlist) }
    ensures work { IfOk result (λ session. P.work session ≡ []) }
{
    let session = sessions.open(rt, alloc, &netlist, crew);
    drop(netlist);
    session
}
