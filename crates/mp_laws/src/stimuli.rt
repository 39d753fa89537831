//! What stimuli set, over time.
ghost use Rattle.mp_laws.specs.Stimuli.{LaterChangesNothingBefore};

/// What stimuli set after a time changes no level up to it: two netlists with the same modules and wires, on which stimuli set the same up
/// to a time, have the same levels up to then.
pub fn later_changes_nothing_before()
    ensures { LaterChangesNothingBefore }
{}
