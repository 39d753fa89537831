//! What the parts of a netlist have together, if no wire connects them.

ghost use Rattle.mp_redo.specs.apart.PartWorkSpans.{AllAreWorkSpans, NoneAreBelow, WorkSpansJoin};
ghost use Rattle.mp_redo.specs.apart.RunSlots.{RunsAreBySlots, RunsKeepStates};
ghost use Rattle.mp_redo.specs.apart.PartRuns.{RunsHavePartWaves, RunsHavePartEnds, RunsKeepPartStates};
ghost use Rattle.mp_redo.specs.apart.PartRuns.{PartRunsHaveWaves, PartRunsHaveEnds, PartRunsKeepStates};

/// The work spans of all parts, one part after the other, are the work spans of the netlist, if each part has its least delay.
pub fn work_spans_join()
    ensures none { NoneAreBelow }
    ensures join { WorkSpansJoin }
    ensures all { AllAreWorkSpans }
{}

/// A run is what it has in its slots.
pub fn runs_are_by_slots()
    ensures slots { RunsAreBySlots }
    ensures states { RunsKeepStates }
{}

/// The run of a netlist has what the run of a part has of the wires that no other part drives, and of the modules that are at home there.
pub fn runs_have_parts()
    ensures waves { RunsHavePartWaves }
    ensures ends { RunsHavePartEnds }
    ensures states { RunsKeepPartStates }
{}

/// The run of a part has what the run of the netlist has of these wires and modules.
pub fn part_runs_have_their_own()
    ensures waves { PartRunsHaveWaves }
    ensures ends { PartRunsHaveEnds }
    ensures states { PartRunsKeepStates }
{}
