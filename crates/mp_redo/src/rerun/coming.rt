//! What comes in the next unit.
ghost use Rattle.mp_redo.specs.rerun.Coming.{IsComing};

use mp_active::{NewChanges, SetWires};
use mp_simulation::NetlistSimulation;

/// What is known ahead of the next unit, and what is set in it.
pub(crate) fn coming_changes<'a>(
    simulation: &'a NetlistSimulation,
    set: &'a SetWires,
) -> NewChanges<'a>
    ensures { IsComing simulation.now set.now result }
{
    NewChanges {
        wires: simulation.toggles_ahead(0),
        copies: simulation.bits.copies.wheel.slot(0),
        set: set.bits.as_slice(),
        levels: simulation.levels_ahead(0),
        set_levels: set.levels.as_slice(),
    }
}
