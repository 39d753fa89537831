//! A designer at a seat.
use crate::hosting::rises::Rises;
use crate::{Occupant, Refusal};
use mp_desk::{Desk, DeskName, EditKeeper, SignedVersion, SubmitError};
use mp_meeting::DesignerTally;
use mp_netlist::Edit;
use mp_version::EditSession;
use std::alloc::AllocError;
use std::sync::Wait;
use std::thread::Threads;

/// A designer, with the desk at which the edits are submitted.
#[derive(Drop)]
pub(crate) struct DesignerGuest<'a, S: EditSession, K: EditKeeper, L: DeskName, R: Wait + Drop> {
    pub desk: &'a Desk<S, K, L, R>,
    pub sitting: DesignerTally<L>,
}

impl<'a, S: EditSession, K: EditKeeper, L: DeskName, R: Wait + Drop> Occupant
    for DesignerGuest<'a, S, K, L, R> {
    ghost use Rattle.std.specs.Prelude.{true};
    ghost use Rattle.mp_seats.specs.hosting.Guests.{sitter};

    ghost seated = { λ guest. sitter guest.sitting };

    ghost edits = { true };

    #[tactic(auto, using(crate::proofs::lemmas::hosting::GuestLemmas::is_accepted, crate::proofs::lemmas::hosting::GuestLemmas::is_refused, crate::proofs::lemmas::hosting::GuestLemmas::is_not_kept))]
    fn submit<H: Threads + Wait + Sync>(&mut self, rt: &H, edit: Edit) -> Result<u32, Refusal> {
        match self.sitting.submit(rt, self.desk, edit) {
            Ok(number) => Ok(number),
            Err(SubmitError::Refused(error)) => Err(Refusal::Refused(error)),
            Err(SubmitError::NotKept) => Err(Refusal::NotKept),
        }
    }

    fn read(&mut self) -> Result<SignedVersion, AllocError> {
        self.sitting.read().map_err(|_| AllocError)
    }

    #[tactic(auto, using(crate::proofs::lemmas::hosting::GuestLemmas::is_counted))]
    fn refuse(&mut self) {
        self.sitting.refuse();
    }
}

impl<'a, S: EditSession, K: EditKeeper, L: DeskName, R: Wait + Drop> Rises
    for DesignerGuest<'a, S, K, L, R> {
    ghost use Rattle.mp_seats.specs.hosting.Guests.{sitter};

    type Person = DesignerTally<L>;

    ghost seated_as = { sitter };

    fn rise(self) -> DesignerTally<L> {
        let DesignerGuest { sitting, .. } = self;
        sitting
    }
}
