//! A seat of a desk.
ghost use Rattle.std.specs.Prelude.{◌≡◌};

use crate::occupant::Occupant;
use crate::refusal::Refusal;
use crate::reply::Reply;
use crate::reply_writer::ReplyWriter;
use crate::talk::{Answerer, TalkFault, converse};
use crate::width::is_wide;
use mp_desk::SignedVersion;
use mp_netlist::{Edit, EditError};
use mp_streams::{Out, Sink, Source, WriteError};
use mp_text::{Line, LineError, LineReader, Question, read_line};
use std::alloc::Global;
use std::marker::Model;
use std::sync::Wait;
use std::thread::Threads;

/// A seat of a desk, with the one who sits there, and how replies are written. A contract sees the one who sits.
#[derive(Drop)]
pub struct Seat<B: ReplyWriter, G: Occupant> {
    alloc: Global,
    scribe: B,
    guest: G,
}

impl<B: ReplyWriter, G: Occupant> Model for Seat<B, G> {
    ghost use Rattle.mp_seats.specs.Steps.{Seated};

    ghost Value = { Seated };

    ghost view = { λ seat. G.seated seat.guest };
}

impl<B: ReplyWriter, G: Occupant> Seat<B, G> {
    ghost use Rattle.std.specs.Prelude.{◌≡◌, ℕ, List, Some, []};
    ghost use Rattle.std.specs.Arc.{arc_value};
    ghost use mathlib.Core.List.{IsPrefix};
    ghost use Rattle.mp_streams.specs.WriteErrors.{Writes};
    ghost use Rattle.mp_seats.specs.talk.Answers.{PutsAnswer};
    ghost use Rattle.mp_seats.specs.talk.TalkFaults.{counted_reads};
    ghost use Rattle.mp_seats.specs.Replies.{signed_writing};
    ghost use Rattle.mp_seats.specs.Steps.{with_refusal, IsSignedStep, PutsEdit, PutsAsked};
    ghost use Rattle.mp_seats.specs.Seats.{IsVisit};

    /// A seat at which this guest sits.
    pub fn new(alloc: Global, scribe: B, guest: G) -> Self
        ensures { result ≡ G.seated guest }
    {
        Seat {
            alloc,
            scribe,
            guest,
        }
    }

    /// The one who sat there.
    pub fn into_guest(self) -> G
        ensures { G.seated result ≡ self }
    {
        let Seat { guest, .. } = self;
        guest
    }

    /// Answers each line that comes, and passes the answer on to the sink, before it reads the next one. It ends when the source ends.
    ///
    /// `ReadFailed` comes if the source fails, after the answers to all lines that ended before. `WriteFailed` comes with a fault of the sink, and
    /// `OutOfMemory` if memory runs out for the answer to a question: then a part of the last answer may be written. An edit for which memory runs
    /// out is refused, and so is a line for whose reading it is wanting.
    pub fn serve<R: Threads + Wait + Sync, I: Source, T: Sink>(
        &mut self,
        rt: &R,
        lines: &mut LineReader<I>,
        out: &mut Out<T>,
    ) -> Result<(), TalkFault>
        requires { out.old.held ≡ [] }
        ensures visit { (authors : List ℕ) → IsPrefix self.new.signed authors → IsVisit (signed_writing B.answer_text B.reply_text authors) G.edits result self.old self.new lines.old lines.new out.old out.new }
        ensures flushed { out.new.held ≡ [] }
        ensures read_faults { lines.new.faults ≡ counted_reads result lines.old.faults }
    {
        converse(rt, self, lines, out)
    }

    /// Counts the line, and writes its reply.
    fn put_counted<T: Sink>(&mut self, out: &mut Out<T>, reply: &Reply) -> Result<(), WriteError>
        ensures counted { self.new ≡ with_refusal G.edits self.old }
        ensures written { Writes result out.old out.new (B.reply_text reply.now) }
    {
        self.guest.refuse();
        self.scribe.put_reply(out, reply)
    }

    /// Writes the answer to a question about the version that is read for it, the newest.
    fn put_asked<R: Threads + Wait + Sync, T: Sink>(
        &mut self,
        rt: &R,
        question: &Question,
        out: &mut Out<T>,
    ) -> Result<(), WriteError>
        ensures { PutsAsked (signed_writing B.answer_text B.reply_text) G.edits result self.old self.new question.now out.old out.new }
    {
        let Ok(read) = self.guest.read() else {
            return self.put_counted(out, &Reply::Refused(EditError::OutOfMemory));
        };
        self.put_read(rt, &read, question, out)
    }

    /// Writes the answer to a question about a version that was read.
    fn put_read<R: Threads + Wait + Sync, T: Sink>(
        &self,
        rt: &R,
        read: &SignedVersion,
        question: &Question,
        out: &mut Out<T>,
    ) -> Result<(), WriteError>
        ensures { Writes result out.old out.new (B.answer_text (arc_value read.now.version) read.now.authors question.now) }
    {
        let authors = read.authors.as_slice();
        self.scribe
            .put_answer(rt, out, &read.version, authors, question)
    }

    /// Submits an edit, and writes its reply.
    fn put_change<R: Threads + Wait + Sync, T: Sink>(
        &mut self,
        rt: &R,
        edit: Edit,
        out: &mut Out<T>,
    ) -> Result<(), WriteError>
        ensures { PutsEdit (signed_writing B.answer_text B.reply_text) G.edits result self.old self.new edit out.old out.new }
    {
        match self.guest.submit(rt, edit) {
            Ok(number) => self.scribe.put_reply(out, &Reply::Accepted(number)),
            Err(Refusal::Refused(error)) => self.put_counted(out, &Reply::Refused(error)),
            Err(Refusal::NotADesigner) => self.put_counted(out, &Reply::NotADesigner),
            Err(Refusal::NotKept) => self.put_counted(out, &Reply::NotKept),
        }
    }

    /// Writes the reply to a line of at most 65,536 bytes. It is too long too if it has more as the journal writes it.
    fn put_line<R: Threads + Wait + Sync, T: Sink>(
        &mut self,
        rt: &R,
        line: &[u8],
        out: &mut Out<T>,
    ) -> Result<(), WriteError>
        ensures { PutsAnswer (IsSignedStep (signed_writing B.answer_text B.reply_text) G.edits) result self.old self.new (Some line.now) out.old out.new }
    {
        if is_wide(line) {
            return self.put_counted(out, &Reply::TooLong);
        }
        match read_line(self.alloc, line) {
            Ok(Line::Empty) => Ok(()),
            Ok(Line::Change(edit)) => self.put_change(rt, edit, out),
            // dropped by a call: at the end of the match, the drop of each part would stand here
            Ok(Line::Ask(question)) => {
                let put = self.put_asked(rt, &question, out);
                drop(question);
                put
            }
            Err(LineError::OutOfMemory) => {
                self.put_counted(out, &Reply::Refused(EditError::OutOfMemory))
            }
            Err(error) => self.put_counted(out, &Reply::Unread(error)),
        }
    }
}

impl<B: ReplyWriter, G: Occupant> Answerer for Seat<B, G> {
    ghost use Rattle.mp_seats.specs.Replies.{signed_writing};
    ghost use Rattle.mp_seats.specs.Steps.{IsSignedStep};

    ghost Answers = { IsSignedStep (signed_writing B.answer_text B.reply_text) G.edits };

    fn put_answer<R: Threads + Wait + Sync, T: Sink>(
        &mut self,
        rt: &R,
        line: Option<&[u8]>,
        out: &mut Out<T>,
    ) -> Result<(), WriteError> {
        match line {
            Some(line) => self.put_line(rt, line, out),
            None => self.put_counted(out, &Reply::TooLong),
        }
    }
}
