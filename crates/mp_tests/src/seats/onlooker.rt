//! One who sits at a seat, makes no edits, and has no memory to read.
use mp_desk::SignedVersion;
use mp_netlist::Edit;
use mp_seats::{Occupant, Refusal};
use std::alloc::AllocError;
use std::sync::Wait;
use std::thread::Threads;

/// Refuses edits, and reads nothing.
#[derive(Drop)]
pub(crate) struct Onlooker;

impl Occupant for Onlooker {
    ghost use Rattle.std.specs.Prelude.{[], false};
    ghost use Rattle.mp_netlist.specs.declared.format.Format.TheVariants.{Standard};
    ghost use Rattle.mp_version.specs.Stories.{opening};

    ghost seated = { λ _. record { seen = opening (record { format = Standard; horizon = 0; wires = []; modules = []; bundles = [] }); accepted = 0; refused = 0; told = 0; number = 0; signed = []; reads = [] } };

    ghost edits = { false };

    fn submit<R: Threads + Wait + Sync>(&mut self, _rt: &R, edit: Edit) -> Result<u32, Refusal> {
        drop(edit);
        Err(Refusal::NotADesigner)
    }

    fn read(&mut self) -> Result<SignedVersion, AllocError> {
        Err(AllocError)
    }

    fn refuse(&mut self) {}
}
