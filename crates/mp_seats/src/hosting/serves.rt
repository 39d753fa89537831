//! Those who serve others on a thread of their own.
ghost use Rattle.std.specs.Thread.{IsSync};

use std::alloc::Global;
use std::sync::Wait;
use std::thread::Threads;

/// Who serves all who come, and changes with each of them.
pub(crate) trait Serves {
    // What one may have become at the end.
    ghost Becomes: { Self → Self → Type 0 };

    /// Serves all who come, one after the other. The clause `shared` repeats the bound `Sync`, since in a trait the prover asks for both.
    fn serve<R: Threads + Wait + Sync>(&mut self, rt: &R, alloc: Global)
        requires shared { IsSync R.row }
        ensures { Becomes self.old self.new };
}

/// How others learn that one has come to an end.
pub(crate) trait EndNotice {
    /// What is to be kept until all of them know it.
    type Held: Drop;

    /// Tells all others that the input has ended.
    fn end(&self) -> Self::Held;
}
