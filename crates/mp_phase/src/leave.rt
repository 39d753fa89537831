//! Tasks that may enter a gate.

ghost use Rattle.mp_phase.specs.Allowed.{AreAllowed};

use crate::gate::Gate;
use crate::work::Work;

/// Tasks, and the gate that they may enter.
#[derive(Drop)]
pub struct Leave<'a, T: Work, G: Gate> {
    pub gate: &'a G,
    pub tasks: Vec<T>,
    pub ghost allowed: { AreAllowed T.enters (G.may gate.now) tasks.items },
}
