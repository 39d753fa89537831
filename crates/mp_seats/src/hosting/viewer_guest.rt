//! A viewer at a seat.
use crate::hosting::rises::Rises;
use crate::{Occupant, Refusal};
use mp_desk::{DeskName, SignedVersion, Viewer};
use mp_netlist::Edit;
use std::alloc::AllocError;
use std::sync::Wait;
use std::thread::Threads;

/// A viewer, who makes no edits.
#[derive(Drop)]
pub(crate) struct ViewerGuest<L: DeskName> {
    pub viewer: Viewer<L>,
}

impl<L: DeskName> Occupant for ViewerGuest<L> {
    ghost use Rattle.std.specs.Prelude.{false};
    ghost use Rattle.mp_seats.specs.hosting.Guests.{looker};

    ghost seated = { λ guest. looker guest.viewer };

    ghost edits = { false };

    fn submit<R: Threads + Wait + Sync>(&mut self, _rt: &R, edit: Edit) -> Result<u32, Refusal> {
        drop(edit);
        Err(Refusal::NotADesigner)
    }

    fn read(&mut self) -> Result<SignedVersion, AllocError> {
        self.viewer.read().map_err(|_| AllocError)
    }

    fn refuse(&mut self) {}
}

impl<L: DeskName> Rises for ViewerGuest<L> {
    ghost use Rattle.mp_seats.specs.hosting.Guests.{looker};

    type Person = Viewer<L>;

    ghost seated_as = { looker };

    fn rise(self) -> Viewer<L> {
        let ViewerGuest { viewer } = self;
        viewer
    }
}
