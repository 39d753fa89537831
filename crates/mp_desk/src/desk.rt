//! The desk: how it is opened, an edit submitted, and how it is closed.
ghost use Rattle.std.specs.Prelude.{◌≡◌};

use crate::close_refused::{CloseCause, CloseRefused};
use crate::designer::Designer;
use crate::desk_parts::DeskParts;
use crate::desk_refused::{DeskCause, DeskRefused};
use crate::desk_state::DeskState;
use crate::kept_session::KeptSession;
use crate::name::DeskName;
use crate::parting::{part_designers, part_viewers};
use crate::receipt::Receipt;
use crate::staffed::Staffed;
use crate::staffing::{designers_at, viewers_at};
use crate::submit_error::SubmitError;
use crate::viewer::Viewer;
use mp_netlist::Edit;
use mp_version::{EditKeeper, EditSession};
use std::marker::Model;
use std::sync::{Mutex, Wait};
use std::thread::Threads;

/// A desk, at which designers submit edits. A contract sees the number of the version with which it was opened, and how many designers it has.
#[derive(Drop)]
pub struct Desk<S: EditSession, K: EditKeeper, L: DeskName, R: Wait + Drop> {
    state: Mutex<DeskState<S, K, L, R>>,
    opening: u32,
    designers: usize,
}

impl<S: EditSession, K: EditKeeper, L: DeskName, R: Wait + Drop> Model for Desk<S, K, L, R> {
    ghost use Rattle.std.specs.Prelude.{◌≡◌, ◌+◌};
    ghost use Rattle.mp_desk.specs.Holders.{Opened};

    ghost Value = { Opened };

    ghost view = { λ d. record { opening = d.opening; designers = d.designers } };

    ghost invariant = { λ d. (d.opening ≡ L.opening) × (d.designers + 1 ≡ L.parts) };
}

impl<S: EditSession, K: EditKeeper, L: DeskName, R: Wait + Drop> Desk<S, K, L, R> {
    ghost use Rattle.std.specs.Prelude.{◌≢◌, ◌+◌, length, vec_len, All, IfOk, IfErr};
    ghost use Rattle.mp_version.specs.Extending.{Extends};
    ghost use Rattle.mp_desk.specs.Holders.{fresh_viewer, AreFresh, ExtendsEach, HaveSeenTheSame, accepted_by, IsSigned};
    ghost use Rattle.mp_desk.specs.declared.desk_refused.DeskCause.TheVariants.{OutOfMemory};

    /// Opens the desk under the name that the caller picked for these parts. It is refused only for lack of memory; then the session is returned.
    pub fn open(parts: DeskParts<S, K, R>) -> Result<Staffed<S, K, L, R>, DeskRefused<S, K>>
        requires history { parts.book ≡ L.history }
        requires ledger { parts.ledger ≡ L.name }
        requires shares { parts.designers + 1 ≡ L.parts }
        requires opening { length (S.story parts.session).edits ≡ L.opening }
        ensures desk { IfOk result (λ s. (s.desk.opening ≡ length (S.story parts.session).edits) × (s.desk.designers ≡ parts.designers)) }
        ensures designers { IfOk result (λ s. (vec_len s.designers ≡ parts.designers) × AreFresh (S.story parts.session) s.designers.items) }
        ensures viewers { IfOk result (λ s. (vec_len s.viewers ≡ parts.viewers) × All (λ v. v ≡ fresh_viewer (S.story parts.session)) s.viewers.items) }
        ensures refused { IfErr result (λ r. r.kept.session ≡ parts.session) }
        ensures wanting { IfErr result (λ r. r.cause ≡ OutOfMemory) }
    {
        let DeskParts {
            alloc,
            kept,
            writer,
            publication,
            designers: for_designers,
            viewers: for_viewers,
            blank,
        } = parts;
        let count = for_designers.len();
        let (mut book, mut share) = blank.open::<L>();
        book.add(&mut share, kept.session().version().number() as u64);
        let (Ok(designers), Ok(viewers)) = (
            designers_at(alloc, for_designers, &writer, &mut share),
            viewers_at(alloc, for_viewers, kept.session().version(), &writer),
        ) else {
            return Err(DeskRefused::new(DeskCause::OutOfMemory, kept));
        };
        let (session, keeper) = kept.into_parts();
        let state = DeskState {
            session,
            keeper,
            writer,
            publication,
            book,
            share,
        };
        Ok(Staffed {
            desk: Desk::over(state, count),
            designers,
            viewers,
        })
    }

    /// The desk with this state under its lock, and this number of designers.
    fn over(state: DeskState<S, K, L, R>, designers: usize) -> Desk<S, K, L, R>
        requires opening { length state.story.edits ≡ L.opening }
        requires designers { designers + 1 ≡ L.parts }
        ensures { result ≡ record { opening = length state.story.edits; designers = designers } }
    {
        let opening = state.session.version().number();
        Desk {
            state: Mutex::new(state),
            opening,
            designers,
        }
    }

    /// The number of the version with which the desk was opened.
    pub fn opening(&self) -> u32
        ensures { result ≡ self.now.opening }
    {
        self.opening
    }

    /// Closes the desk, with all its designers and the viewers that are lent, and gives its session, with what keeps its edits. `MissingPass` if not
    /// all designers are given: then all is handed back.
    pub fn close(
        self,
        rt: &R,
        designers: Vec<Designer<L>>,
        viewers: &mut [Viewer<L>],
    ) -> Result<KeptSession<S, K>, CloseRefused<S, K, L, R>>
        ensures viewers { HaveSeenTheSame viewers.old viewers.new }
        ensures seen { IfOk result (λ kept. ExtendsEach (S.story kept.session) designers.items) }
        ensures read { IfOk result (λ kept. All (λ v. Extends (S.story kept.session) v.last) viewers.old) }
        ensures counted { IfOk result (λ kept. length (S.story kept.session).edits ≡ self.opening + accepted_by designers.items) }
        ensures signed { IfOk result (λ kept. IsSigned (S.story kept.session) designers.items viewers.old) }
        ensures complete { IfOk result (λ _. vec_len designers ≡ self.designers) }
        ensures incomplete { IfErr result (λ _. vec_len designers ≢ self.designers) }
        ensures refused { IfErr result (λ r. (r.desk ≡ self) × (r.designers ≡ designers)) }
    {
        if designers.len() != self.designers {
            return Err(CloseRefused {
                cause: CloseCause::MissingPass,
                desk: self,
                designers,
            });
        }
        let Desk {
            state,
            opening: _,
            designers: _,
        } = self;
        let DeskState {
            session,
            keeper,
            writer,
            publication,
            mut book,
            mut share,
        } = state.into_inner();
        part_designers(rt, &publication, &writer, designers, &mut share);
        part_viewers(rt, &publication, &writer, viewers);
        book.audit(&mut share);
        Ok(KeptSession::new(session, keeper))
    }
}

impl<S: EditSession, K: EditKeeper, L: DeskName, R: Wait + Drop> Desk<S, K, L, R> {
    ghost use Rattle.std.specs.Prelude.{◌+◌, length, IfOk, IfErr, OnErr};
    ghost use Rattle.std.specs.Arc.{arc_value};
    ghost use mathlib.Core.List.{IsPrefix};
    ghost use Rattle.mp_version.specs.Stories.{Story, one_more};
    ghost use Rattle.mp_version.specs.Extending.{Extends};
    ghost use Rattle.mp_desk.specs.Holders.{Signs};
    ghost use Rattle.mp_desk.specs.Keepers.{NotAccepted};

    /// Submits an edit, which is judged after all edits that were accepted before it, and if it is accepted kept and then published before the
    /// answer. The one lock is held meanwhile: other designers wait, and viewers don't. `Refused` is the error of the session, and `NotKept` comes
    /// where the edit can't be kept, and from then on for each edit; then nothing is published.
    pub fn submit<H: Threads + Wait + Sync>(
        &self,
        rt: &H,
        me: &mut Designer<L>,
        edit: Edit,
    ) -> Result<Receipt<L>, SubmitError>
        ensures accepted { IfOk result (λ r. (s : Story) × Extends s me.old.seen × (arc_value r.version ≡ one_more s edit)) }
        ensures notice { IfOk result (λ r. r.notice ≡ arc_value r.version) }
        ensures seen { IfOk result (λ r. me.new.seen ≡ arc_value r.version) }
        ensures counted { IfOk result (λ _. me.new.accepted ≡ me.old.accepted + 1) }
        ensures signed { IfOk result (λ r. Signs me.old me.new (arc_value r.version)) }
        ensures refused { IfErr result (λ error. NotAccepted K.is_lost me.old.seen me.new.seen edit error) }
        ensures uncounted { OnErr result (me.new.accepted ≡ me.old.accepted) }
        ensures begins { IsPrefix me.old.signed me.new.signed }
        ensures each { length me.new.signed ≡ length me.new.seen.edits }
        ensures number { me.new.number ≡ me.old.number }
        ensures forward { OnErr result (Extends me.new.seen me.old.seen) }
    {
        self.state.lock(rt).submit(rt, me, edit)
    }
}
