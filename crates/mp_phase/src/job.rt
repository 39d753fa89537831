//! What is sent to a worker.

ghost use Rattle.std.specs.Prelude.{◌≡◌};
ghost use Rattle.crossbeam_channel.specs.Claims.{view, IsSeatAt};
ghost use Rattle.crossbeam_channel.specs.Ends.{sends_on};
ghost use Rattle.mp_phase.specs.declared.side.Side.TheVariants.{Owes};

use crate::answer_protocol::{Replier, Token};
use crate::gate::Gate;
use crate::leave::Leave;
use crate::work::Work;

/// Tasks, with what it takes to answer them.
#[derive(Drop)]
pub struct Job<'a, T: Work, G: Gate> {
    pub leave: Leave<'a, T, G>,
    pub to: Replier<T>,
    pub token: Token<T>,
    pub ghost seat: { IsSeatAt (sends_on to) token },
    pub ghost owed: { view token ≡ Owes leave.tasks.items },
}
