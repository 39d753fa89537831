//! Those who sit at seats.
ghost use Rattle.std.specs.Prelude.{◌≡◌, Bool, length, IfOk, OnErr};
ghost use Rattle.std.specs.Arc.{arc_value};
ghost use Rattle.std.specs.Thread.{IsSync};
ghost use mathlib.Core.List.{IsPrefix};
ghost use Rattle.mp_version.specs.Extending.{Extends};
ghost use Rattle.mp_seats.specs.Steps.{Seated, with_seen, with_read, with_refusal, Submits};

use crate::refusal::Refusal;
use mp_desk::SignedVersion;
use mp_netlist::Edit;
use std::alloc::AllocError;
use std::sync::Wait;
use std::thread::Threads;

/// Who sits at a seat: a designer, or a viewer.
pub trait Occupant: Drop {
    // What was seen last, how many edits were accepted, how many lines refused or not read, and all that was read.
    ghost seated: { Self → Seated };

    // Whether edits are made here.
    ghost edits: { Bool };

    /// Submits an edit, and tells how many were accepted so far, with this one. The error says why it isn't made. The clause `shared` says what
    /// the bound `Sync` says: in a trait the prover asks for both.
    fn submit<R: Threads + Wait + Sync>(&mut self, rt: &R, edit: Edit) -> Result<u32, Refusal>
        requires shared { IsSync R.row }
        ensures { Submits edits result (seated self.old) (seated self.new) edit };

    /// Reads the newest version, and waits for nobody: it is the one that was seen last, or a later one. Its authors begin with those that were known.
    /// It is what is published then, never a version that was kept. The error comes if memory runs out: then the version that was seen last stays.
    fn read(&mut self) -> Result<SignedVersion, AllocError>
        ensures later { IfOk result (λ v. Extends (arc_value v.version) (seated self.old).seen) }
        ensures seen { IfOk result (λ v. seated self.new ≡ with_read (seated self.old) (arc_value v.version) v.authors) }
        ensures authors { IfOk result (λ v. IsPrefix (seated self.old).signed v.authors) }
        ensures err { OnErr result (seated self.new ≡ with_seen (seated self.old) (seated self.old).seen (seated self.old).signed (seated self.new).reads) }
        ensures each { length (seated self.new).signed ≡ length (seated self.new).seen.edits };

    /// Counts a line that was refused or not read, where edits are made. Nothing else changes.
    fn refuse(&mut self)
        ensures { seated self.new ≡ with_refusal edits (seated self.old) };
}
