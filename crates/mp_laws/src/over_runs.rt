//! What it means that a run is over.
ghost use Rattle.mp_laws.specs.OverRuns.{NothingChangesAgain};

/// In a run that is over no wire changes above the time of the last change: in each netlist with the same modules, the same wires, the same stimuli and
/// a horizon at least as great.
pub fn nothing_changes_again()
    ensures { NothingChangesAgain }
{}
