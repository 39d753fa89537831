//! A designer at work.
ghost use Rattle.std.specs.Prelude.{◌≡◌};

use mp_desk::{
    Designer, Desk, DeskName, EditKeeper, Notice, ReadError, SignedVersion, SubmitError, Unkept,
    Viewer,
};
use mp_netlist::{Edit, EditError};
use mp_text::{Line, LineError, first_line, read_line};
use mp_version::EditSession;
use std::alloc::{AllocError, Global};
use std::marker::Model;
use std::sync::Wait;
use std::thread::Threads;

/// A designer who submits lines, and what became of those so far.
#[derive(Drop)]
pub struct DesignerTally<L: DeskName> {
    pub(crate) me: Designer<L>,
    /// The notice of the last edit that was accepted.
    pub(crate) last: Option<Notice<L>>,
    pub(crate) refused: u64,
    /// Whether memory ran out.
    pub(crate) wanting: bool,
}

impl<L: DeskName> Model for DesignerTally<L> {
    ghost use Rattle.std.specs.Prelude.{◌≡◌, length};
    ghost use Rattle.mp_meeting.specs.Sittings as sittings;
    ghost use Rattle.mp_meeting.specs.Sittings.{told_of};

    ghost Value = { sittings.DesignerTally };

    ghost view = { λ s. record { seen = s.me.seen; accepted = s.me.accepted; refused = s.refused; told = told_of s.last; wanting = s.wanting; number = s.me.number; signed = s.me.signed; reads = s.me.reads } };
}

impl<L: DeskName> DesignerTally<L> {
    ghost use Rattle.std.specs.Prelude.{◌≡◌, ◌+◌, ◌-◌, ◌^◌, ◌<◌, ◌≤◌, ◌⊎◌, ◌∷◌, min, false, length, IfOk, IfErr, OnOk, OnErr};
    ghost use Rattle.std.specs.Arc.{arc_value};
    ghost use mathlib.Core.List.{IsPrefix};
    ghost use Rattle.mp_text.specs.lexing.Lines.{lines_of};
    ghost use Rattle.mp_text.specs.ScriptLines.{line_at};
    ghost use Rattle.mp_version.specs.Extending.{Extends};
    ghost use Rattle.mp_desk.specs.Keepers.{NotAccepted};
    ghost use Rattle.mp_meeting.specs.Sittings.{begun, with_seen, IsAccepted, IsRefused, Takes, HasWorked};
    ghost use Rattle.mp_meeting.specs.Seats.{working};

    /// A designer who has submitted nothing yet.
    pub(crate) fn new(me: Designer<L>) -> DesignerTally<L>
        requires { me.accepted ≡ 0 }
        ensures { result ≡ begun me }
    {
        DesignerTally {
            me,
            last: None,
            refused: 0,
            wanting: false,
        }
    }

    /// Tells a viewer of the last edit that was accepted.
    #[tactic(auto, using(mp_version::proofs::PrefixLemmas::extends_length))]
    pub(crate) fn tell(&self, viewer: &mut Viewer<L>)
        ensures told { self.now.told ≤ length viewer.new.learnt.edits }
        ensures kept { length viewer.old.learnt.edits ≤ length viewer.new.learnt.edits }
        ensures last { (viewer.new.last ≡ viewer.old.last) × (viewer.new.signed ≡ viewer.old.signed) }
    {
        if let Some(notice) = &self.last {
            viewer.learn(notice);
        }
    }

    /// Submits the edit of a line. A line that isn't an edit counts as refused; one without words isn't counted.
    fn take_line<S: EditSession, R: Threads + Wait + Sync + Drop>(
        &mut self,
        rt: &R,
        alloc: Global,
        desk: &Desk<S, Unkept, L, R>,
        line: &[u8],
    ) -> Result<(), AllocError>
        requires { self.old.refused < 2 ^ 64 - 1 }
        ensures { OnOk result (Takes self.old self.new (line_at line.now)) }
    {
        match read_line(alloc, line) {
            Ok(Line::Empty) => Ok(()),
            Ok(Line::Change(edit)) => self.take_edit(rt, desk, edit),
            // dropped by a call: at the end of the match, the drop of each part would stand here
            Ok(Line::Ask(question)) => {
                drop(question);
                self.refused += 1;
                Ok(())
            }
            Err(LineError::OutOfMemory) => Err(AllocError),
            Err(_) => {
                self.refused += 1;
                Ok(())
            }
        }
    }

    /// Submits an edit, and returns the number of accepted edits with this one. The error is that of the desk; it isn't counted.
    pub fn submit<S: EditSession, K: EditKeeper, R: Wait + Drop, H: Threads + Wait + Sync>(
        &mut self,
        rt: &H,
        desk: &Desk<S, K, L, R>,
        edit: Edit,
    ) -> Result<u32, SubmitError>
        ensures accepted { IfOk result (λ n. IsAccepted self.old self.new edit × (n ≡ self.new.told)) }
        ensures refused { IfErr result (λ error. NotAccepted K.is_lost self.old.seen self.new.seen edit error) }
        ensures same { OnErr result (self.new ≡ with_seen self.old self.new.seen self.new.signed self.new.reads) }
        ensures begins { OnErr result (IsPrefix self.old.signed self.new.signed) }
        ensures forward { OnErr result (Extends self.new.seen self.old.seen) }
    {
        let receipt = desk.submit(rt, &mut self.me, edit)?;
        let number = receipt.notice.number();
        self.last = Some(receipt.notice);
        Ok(number)
    }

    /// Counts a line as refused, if the count isn't at its greatest value.
    pub fn refuse(&mut self)
        ensures { self.new ≡ record self.old { refused = min (self.old.refused + 1) (2 ^ 64 - 1) } }
    {
        self.refused = self.refused.saturating_add(1);
    }

    /// Reads the version that is published now, and not one that was kept, without waiting. Its authors begin with those that were known before.
    /// `Closed` comes if the desk is closed, and `OutOfMemory` if memory runs out; then the version seen last stays.
    pub fn read(&mut self) -> Result<SignedVersion, ReadError>
        ensures later { IfOk result (λ v. Extends (arc_value v.version) self.old.seen) }
        ensures seen { IfOk result (λ v. self.new ≡ with_seen self.old (arc_value v.version) v.authors (arc_value v.version ∷ self.old.reads)) }
        ensures authors { IfOk result (λ v. IsPrefix self.old.signed v.authors) }
        ensures err { OnErr result (self.new ≡ with_seen self.old self.old.seen self.old.signed self.new.reads) }
        ensures each { length self.new.signed ≡ length self.new.seen.edits }
    {
        self.me.read()
    }

    /// Submits an edit.
    fn take_edit<S: EditSession, R: Threads + Wait + Sync + Drop>(
        &mut self,
        rt: &R,
        desk: &Desk<S, Unkept, L, R>,
        edit: Edit,
    ) -> Result<(), AllocError>
        requires { self.old.refused < 2 ^ 64 - 1 }
        ensures { OnOk result (IsAccepted self.old self.new edit ⊎ IsRefused self.old self.new edit) }
    {
        match self.submit(rt, desk, edit) {
            Ok(_) => Ok(()),
            Err(SubmitError::Refused(EditError::OutOfMemory)) => Err(AllocError),
            Err(SubmitError::NotKept) => unreachable!(),
            Err(SubmitError::Refused(_)) => {
                self.refused += 1;
                Ok(())
            }
        }
    }

    /// Submits the lines of the block in turn. If memory runs out the others are left.
    pub(crate) fn work<S: EditSession, R: Threads + Wait + Sync + Drop>(
        &mut self,
        rt: &R,
        alloc: Global,
        desk: &Desk<S, Unkept, L, R>,
        lines: &[u8],
    )
        requires { self.old ≡ begun (working self.old) }
        ensures { self.new.wanting ≡ false → HasWorked self.old.seen (lines_of lines.now) self.new }
    {
        let mut rest = lines;
        while !rest.is_empty() {
            let (line, others) = first_line(rest);
            if self.take_line(rt, alloc, desk, line).is_err() {
                self.wanting = true;
                return;
            }
            rest = others;
        }
    }
}
