//! A journal of edits.
ghost use Rattle.std.specs.Prelude.{◌≡◌, ◌++◌, ◌∷◌, []};
ghost use Rattle.mp_text.specs.edit_lines.EditLines.{edit_text};
ghost use Rattle.mp_streams.specs.Outgoing.{Writes};

use crate::journal::journal_notice::JournalNotice;
use mp_desk::{EditKeeper, NotKept};
use mp_netlist::Edit;
use mp_streams::{Failed, Out, Sink, Text};
use mp_text::EditText;
use std::alloc::{AllocError, Global};
use std::marker::Model;
use std::snapshot::Snapshot;

/// A journal. Each edit is appended as the line of a script, and is completely with the sink before the next one. After a write that failed nothing
/// more is written, so that no edit is missing before another. A contract sees the bytes that the sink had taken before and those that it has taken
/// now, as far as it tells them, whether a write failed, and how many edits there were before.
#[derive(Drop)]
pub struct Journal<T: Sink, N: JournalNotice> {
    out: Out<T>,
    opened: Snapshot<T>,
    notice: N,
    is_lost: bool,
    opening: u32,
}

impl<T: Sink, N: JournalNotice> Model for Journal<T, N> {
    ghost use Rattle.std.specs.Prelude.{◌≡◌, []};
    ghost use Rattle.mp_seats.specs.journal.Journals.{Journal};

    ghost Value = { Journal };

    ghost view = { λ journal. record { before = T.taken journal.opened.value; taken = journal.out.taken; is_lost = journal.is_lost; opening = journal.opening } };

    ghost invariant = { λ journal. journal.out.held ≡ [] };
}

impl<T: Sink + Drop, N: JournalNotice> Journal<T, N> {
    ghost use Rattle.std.specs.Prelude.{◌≡◌, false, IfOk};

    /// A journal for the edits behind so many. The error comes if memory runs out.
    pub fn new(alloc: Global, sink: T, notice: N, opening: u32) -> Result<Self, AllocError>
        ensures { IfOk result (λ journal. journal ≡ record { before = T.taken sink; taken = T.taken sink; is_lost = false; opening = opening }) }
    {
        let opened = Snapshot::of(&sink);
        let out = Out::new(alloc, sink)?;
        Ok(Journal {
            out,
            opened,
            notice,
            is_lost: false,
            opening,
        })
    }
}

impl<T: Sink, N: JournalNotice> Journal<T, N> {
    ghost use Rattle.std.specs.Prelude.{◌≡◌, ◌++◌, ◌∷◌, [], false};
    ghost use Rattle.mp_text.specs.edit_lines.EditLines.{edit_text};
    ghost use Rattle.mp_seats.specs.journal.Journals.{Passes, Continues};

    /// Appends the line of an edit, and passes it on to the sink. The notice is called if a write fails.
    fn append(&mut self, edit: &Edit) -> Result<(), NotKept>
        requires { self.old.is_lost ≡ false }
        ensures { Continues result self.old self.new (edit_text edit.now ++ 10 ∷ []) }
    {
        if self.put_line(edit).is_err() {
            self.is_lost = true;
            self.notice.journal_failed();
            return Err(NotKept);
        }
        Ok(())
    }

    /// Writes the line of an edit, and passes it on to the sink.
    fn put_line(&mut self, edit: &Edit) -> Result<(), Failed>
        ensures before { self.new.before ≡ self.old.before }
        ensures same { (self.new.is_lost ≡ self.old.is_lost) × (self.new.opening ≡ self.old.opening) }
        ensures taken { Passes result self.old.taken self.new.taken (edit_text edit.now ++ 10 ∷ []) }
    {
        put_whole(&mut self.out, edit)
    }
}

impl<T: Sink + Drop, N: JournalNotice> EditKeeper for Journal<T, N> {
    ghost use Rattle.mp_seats.specs.journal.Journals.{KeepsEdits};

    ghost keeps = { λ journal story. KeepsEdits journal story.edits };

    ghost is_lost = { λ journal. journal.is_lost };

    fn is_lost(&self) -> bool {
        self.is_lost
    }

    fn keep(&mut self, edit: &Edit) -> Result<(), NotKept> {
        self.append(edit)
    }
}

/// Writes the line of an edit, and passes it on to the sink.
fn put_whole<T: Sink>(out: &mut Out<T>, edit: &Edit) -> Result<(), Failed>
    requires { out.old.held ≡ [] }
    ensures written { Writes result out.old out.new (edit_text edit.now ++ 10 ∷ []) }
    ensures flushed { out.new.held ≡ [] }
{
    (EditText { edit }, "\n").put_to(out)?;
    Ok(out.flush()?)
}
