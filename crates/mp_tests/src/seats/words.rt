//! Replies as one word each.
use mp_seats::{Reply, ReplyWriter};
use mp_streams::{Out, Sink, Text, WriteError};
use mp_text::Question;
use mp_version::Version;
use std::sync::Wait;
use std::thread::Threads;

/// Writes a word for each reply, and nothing for an answer.
#[derive(Drop)]
pub(crate) struct Words;

impl ReplyWriter for Words {
    ghost use Rattle.std.specs.Prelude.{[]};
    ghost use Rattle.mp_tests.specs.seats.Words.{word};

    ghost answer_text = { λ _ _ _. [] };

    ghost reply_text = { word };

    fn put_answer<R: Threads + Wait + Sync, T: Sink>(
        &self,
        _rt: &R,
        _out: &mut Out<T>,
        _version: &Version,
        _authors: &[usize],
        _question: &Question,
    ) -> Result<(), WriteError> {
        Ok(())
    }

    fn put_reply<T: Sink>(&self, out: &mut Out<T>, reply: &Reply) -> Result<(), WriteError> {
        match reply {
            Reply::Accepted(_) => Ok("accepted ".put_to(out)?),
            Reply::Refused(_) => Ok("refused ".put_to(out)?),
            Reply::NotADesigner => Ok("viewer ".put_to(out)?),
            Reply::NotKept => Ok("unkept ".put_to(out)?),
            Reply::Unread(_) => Ok("unread ".put_to(out)?),
            Reply::TooLong => Ok("long ".put_to(out)?),
        }
    }
}
