//! Who answers lines.
ghost use Rattle.std.specs.Prelude.{ℕ, List, Option};
ghost use Rattle.std.specs.Option.{option_copied};
ghost use Rattle.std.specs.Thread.{IsSync};
ghost use Rattle.mp_seats.specs.talk.Answers.{PutsAnswer};

use mp_streams::{Out, Sink, WriteError};
use std::sync::Wait;
use std::thread::Threads;

/// Who answers lines, and may change with each of them.
pub trait Answerer {
    // Whether an answerer in one state may give this answer to a line and be in the other state after it. `None` is a line that is too long.
    ghost Answers: { Self → Option (List ℕ) → Self → List ℕ → Type 0 };

    /// Writes the answer to a line. `None` is a line that is too long to be read. `WriteFailed` comes if the sink fails, and `OutOfMemory` if memory
    /// runs out: then a part of the answer may be written. The clause `shared` says what the bound `Sync` says: in a trait the prover asks for both.
    fn put_answer<R: Threads + Wait + Sync, T: Sink>(
        &mut self,
        rt: &R,
        line: Option<&[u8]>,
        out: &mut Out<T>,
    ) -> Result<(), WriteError>
        requires shared { IsSync R.row }
        ensures { PutsAnswer Answers result self.old self.new (option_copied line.entry) out.old out.new };
}
