//! What dead ports and deadlocks mean for all times.
ghost use Rattle.mp_laws.specs.ForEver.{DeadAreGreatest, DeadStandForEver, StandsForEver};

/// The dead ports are the greatest set of ports that keeps its members: such a set itself, and each such set is within it.
pub fn dead_ports_are_greatest()
    ensures { DeadAreGreatest }
{}

/// The wires of dead ports keep their levels for ever from the horizon's last unit on: in each netlist with the same modules, the same wires and a
/// horizon at least as great, whatever stimuli set after that unit, if they set the same up to it.
pub fn dead_ports_stand_for_ever()
    ensures { DeadStandForEver }
{}

/// So do the wires of a deadlock.
pub fn deadlocks_stand_for_ever()
    ensures { StandsForEver }
{}
