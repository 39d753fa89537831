//! Why a part of a netlist gives up.

use std::alloc::AllocError;

/// The reason why a partition gives up: it ran out of memory, or a partition at the other end of one of its lines gave up before.
#[derive(Clone, Copy, PartialEq, Eq)]
pub enum GivenUp {
    NoMemory,
    LineClosed,
}

impl From<AllocError> for GivenUp {
    ghost use Rattle.std.specs.Prelude.{◌≡◌};
    ghost use Rattle.mp_engine.specs.declared.messages.given_up.GivenUp.TheVariants.{NoMemory};

    ghost from_gives = { λ _ cause. cause ≡ NoMemory };

    fn from(_error: AllocError) -> GivenUp {
        GivenUp::NoMemory
    }
}
