//! What a period means for all times.
ghost use Rattle.mp_laws.specs.CriticalCycles.{CyclesComeRound};
ghost use Rattle.mp_laws.specs.Repeating.{AreWhole, FindingsRepeatForEver, RepeatsForEver};

/// All wires of a netlist are a whole set, and so is its control: with each wire they have the wires that it depends on.
pub fn sets_are_whole()
    ensures { AreWhole }
{}

/// Wires of a whole set that repeat after some units in a run repeat for ever: in each netlist with the same modules, the same wires, a horizon at
/// least as great, and the same stimuli of these wires, each of them has at each time from the start on the level that it has so many units later.
/// Stimuli of other wires may set anything.
pub fn repeats_for_ever()
    ensures { RepeatsForEver }
{}

/// If all wires repeat, a finding behind the time from which on all later ones follow is found again so many units later, and nothing else is, at each
/// bundle and at each module that drives a wire by a port that doesn't only pass an input on.
pub fn findings_repeat_for_ever()
    ensures { FindingsRepeatForEver }
{}

/// Each change of a critical cycle comes from the next one of it, some periods sooner, and the last one from the first; so its length is a number of
/// whole periods.
pub fn cycles_come_round()
    ensures { CyclesComeRound }
{}
