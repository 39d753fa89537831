//! Laws of active subnetlists, and of a simulation that goes from one to another.

ghost use Rattle.mp_active.specs.excerpt.Excerpts.{ExcerptsAreCircuits, ExcerptsHaveLevels, ExcerptsHaveStates, OffWiresRest, ExcerptsHaveDecided, ExcerptsHaveDrivers};
ghost use Rattle.mp_active.specs.excerpt.Showing.{ShowingSimulates, SimulationsShow};
ghost use Rattle.mp_active.specs.excerpt.Starting.{StartsShow, StartsAreSimulated, RegionsAreExcerpts};
ghost use Rattle.mp_active.specs.excerpt.Setting.{SetsAreStimuli};
ghost use Rattle.mp_active.specs.excerpt.Turning.{TurningShows};
ghost use Rattle.mp_active.specs.excerpt.Leaving.{LeavingShows};
ghost use Rattle.mp_active.specs.excerpt.Activating.{ActivatingShows};
ghost use Rattle.mp_active.specs.excerpt.Renumbering.{NumbersStay, UnitsShow};

/// If all ports of active modules are at wires that are on, the excerpt is a netlist.
pub fn excerpts_are_circuits()
    ensures { ExcerptsAreCircuits }
{}

/// Below the horizon the levels of wires that are on, and the states of active modules, are those of the netlist; and levels that rest on
/// such states are, at whatever time. A wire that is off stays at its initial level.
pub fn excerpts_show()
    ensures levels { ExcerptsHaveLevels }
    ensures states { ExcerptsHaveStates }
    ensures decided { ExcerptsHaveDecided }
    ensures off { OffWiresRest }
{}

/// An active port drives its wire; any other wire that is on and that a port drives has a stimulus; nothing drives a wire that is off.
pub fn excerpts_have_drivers()
    ensures { ExcerptsHaveDrivers }
{}

/// Below the horizon a simulation of an excerpt is one that has, in a numbering, the active modules of the netlist and its wires that are on.
pub fn excerpts_are_simulated()
    ensures simulates { ShowingSimulates }
    ensures shows { SimulationsShow }
{}

/// A simulation keeps its numbering if it keeps its rows and the next copy of each number, as it does in a unit.
pub fn numbers_stay()
    ensures stay { NumbersStay }
    ensures units { UnitsShow }
{}

/// At time 0 it doesn't matter which wires are on. A partition in which each wire that a module elsewhere drives is an inbound wire is the active
/// subnetlist of its modules with all wires on.
pub fn starts()
    ensures show { StartsShow }
    ensures simulated { StartsAreSimulated }
    ensures regions { RegionsAreExcerpts }
{}

/// The changes of the wires that are on and that no active module drives are what stimuli change in the excerpt.
pub fn sets_are_stimuli()
    ensures { SetsAreStimuli }
{}

/// A wire that is off is turned on between two units: it and its delayed copies get their levels, what is in flight, and the wire its wave.
pub fn turning()
    ensures { TurningShows }
{}

/// A module becomes active between two units: it gets its state, and the wheels get the changes of its wires that rest on states up to then.
pub fn activating()
    ensures { ActivatingShows }
{}

/// If modules are put to sleep between two units, the wheels keep nothing of their wires.
pub fn leaving()
    ensures { LeavingShows }
{}
