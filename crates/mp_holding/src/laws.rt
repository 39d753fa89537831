//! What inputs that hold an output do.
ghost use Rattle.mp_holding.specs.Laws.{KeepsHeldOutputs};

/// While the inputs of a set that holds an output keep their levels, the output keeps its level, and the set holds it.
pub fn keeps_held_outputs()
    ensures { KeepsHeldOutputs }
{}
