//! How replies are written.
ghost use Rattle.std.specs.Prelude.{ℕ, List};
ghost use Rattle.std.specs.Thread.{IsSync};
ghost use Rattle.mp_text.specs.declared.question.Question.{Question};
ghost use Rattle.mp_version.specs.Stories.{Story};
ghost use Rattle.mp_streams.specs.WriteErrors.{Writes};
ghost use Rattle.mp_seats.specs.declared.reply.Reply.{Reply};

use crate::reply::Reply;
use mp_streams::{Out, Sink, WriteError};
use mp_text::Question;
use mp_version::Version;
use std::sync::Wait;
use std::thread::Threads;

/// Writes the replies of seats.
pub trait ReplyWriter: Drop {
    // The answer to a question after a story whose edits have these authors.
    ghost answer_text: { Story → List ℕ → Question → List ℕ };

    // Any other reply.
    ghost reply_text: { Reply → List ℕ };

    /// Writes the answer to a question about a version, whose edits have these authors. `WriteFailed` comes if the sink fails, and `OutOfMemory` if memory runs out:
    /// then a part of the answer may be written. The clause `shared` says what the bound `Sync` says: in a trait the prover asks for both.
    fn put_answer<R: Threads + Wait + Sync, T: Sink>(
        &self,
        rt: &R,
        out: &mut Out<T>,
        version: &Version,
        authors: &[usize],
        question: &Question,
    ) -> Result<(), WriteError>
        requires shared { IsSync R.row }
        ensures { Writes result out.old out.new (answer_text version.now authors.now question.now) };

    /// Writes a reply. The errors are those of `put_answer`.
    fn put_reply<T: Sink>(&self, out: &mut Out<T>, reply: &Reply) -> Result<(), WriteError>
        ensures { Writes result out.old out.new (reply_text reply.now) };
}
