//! What keeps no edits.
use mp_netlist::Edit;
use mp_version::{EditKeeper, NotKept};

/// Keeps no edits, for a desk whose edits end with it. It is never lost.
#[derive(Clone, Copy, Drop)]
pub struct Unkept;

impl EditKeeper for Unkept {
    ghost use Rattle.std.specs.Prelude.{false};

    ghost keeps = { λ keeper story. Unit {0} };

    ghost is_lost = { λ keeper. false };

    fn is_lost(&self) -> bool {
        false
    }

    fn keep(&mut self, _edit: &Edit) -> Result<(), NotKept> {
        Ok(())
    }
}
