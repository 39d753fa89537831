//! How replies of seats are written.
ghost use Rattle.std.specs.Prelude.{◌≡◌};
ghost use Rattle.mp_streams.specs.Outgoing.{Writes};
ghost use Rattle.mp_commands.specs.live.SeatReplies.{asks_for_work, asked_edits, no_work_text, seat_reply};

use crate::answers::{
    Snapshot, put_accepted, put_answer, put_coded, put_refused, put_too_long, put_unread,
};
use crate::live::signed_edits::put_signed;
use mp_depend::Work;
use mp_phase::Crew;
use mp_seats::{Reply, ReplyWriter};
use mp_streams::{Failed, Out, Sink, WriteError};
use mp_text::Question;
use mp_version::Version;
use std::alloc::Global;
use std::sync::Wait;
use std::thread::Threads;

/// Writes the replies of seats as `play` writes them, with the crew that looks at versions. Each line of `edits` ends with who made the edit. A
/// version doesn't keep what was evaluated for its last edit: the question `work` is answered `refused 23 NoWork`. An edit at a seat that can't edit
/// is answered `refused 22 NotADesigner`, and one that can't be kept `refused 24 NotKept`.
#[derive(Clone, Copy)]
pub struct SeatScribe {
    pub alloc: Global,
    pub crew: Crew,
}

impl ReplyWriter for SeatScribe {
    ghost use Rattle.mp_commands.specs.live.SeatReplies.{seat_answer, seat_reply};

    ghost answer_text = { seat_answer };

    ghost reply_text = { seat_reply };

    fn put_answer<R: Threads + Wait + Sync, T: Sink>(
        &self,
        rt: &R,
        out: &mut Out<T>,
        version: &Version,
        authors: &[usize],
        question: &Question,
    ) -> Result<(), WriteError> {
        if asks_for_work(question) {
            return Ok(put_no_work(out)?);
        }
        if let Some(from) = asked_edits(question) {
            return Ok(put_signed(out, version, authors, from)?);
        }
        let work = Work::none(self.alloc);
        let of = Snapshot {
            version,
            work: &work,
            crew: self.crew,
        };
        put_answer(rt, self.alloc, out, &of, question)
    }

    fn put_reply<T: Sink>(&self, out: &mut Out<T>, reply: &Reply) -> Result<(), WriteError> {
        Ok(put_any(out, *reply)?)
    }
}

/// Whether it asks for what was evaluated for the last edit.
fn asks_for_work(question: &Question) -> bool
    ensures { result ≡ asks_for_work question.now }
{
    matches!(question, Question::Work)
}

/// From which number on it asks for the accepted edits, if it asks for these.
fn asked_edits(question: &Question) -> Option<u64>
    ensures { result ≡ asked_edits question.now }
{
    match question {
        Question::Edits { from } => Some(*from),
        _ => None,
    }
}

/// Writes a reply.
fn put_any<T: Sink>(out: &mut Out<T>, reply: Reply) -> Result<(), Failed>
    ensures { Writes result out.old out.new (seat_reply reply) }
{
    match reply {
        Reply::Accepted(number) => put_accepted(out, number),
        Reply::Refused(error) => put_refused(out, error),
        Reply::NotADesigner => put_coded(out, &"refused ", 22, "NotADesigner"),
        Reply::NotKept => put_coded(out, &"refused ", 24, "NotKept"),
        Reply::Unread(error) => put_unread(out, error),
        Reply::TooLong => put_too_long(out),
    }
}

/// Writes that the work of an edit isn't known at a seat.
fn put_no_work<T: Sink>(out: &mut Out<T>) -> Result<(), Failed>
    ensures { Writes result out.old out.new no_work_text }
{
    put_coded(out, &"refused ", 23, "NoWork")
}
