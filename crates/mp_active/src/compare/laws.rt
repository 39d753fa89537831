//! Laws of old runs, and of the numbers that inputs read.

ghost use Rattle.mp_active.specs.compare.OldRuns.{RunsAreOld, RunsHaveWaves, RunsEnd};
ghost use Rattle.mp_active.specs.compare.Reading.{ReadsAreListed};

/// The run of a netlist has its levels up to the horizon: waves all of whose changes come before that.
pub fn runs_are_old()
    ensures levels { RunsAreOld }
    ensures waves { RunsHaveWaves }
    ensures end { RunsEnd }
{}

/// The ports of a module, some of which may be open, read a number as often as it is among the numbers of its inputs.
pub fn reads_are_listed()
    ensures { ReadsAreListed }
{}
