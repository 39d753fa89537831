//! Laws of the parts of a netlist.

ghost use Rattle.mp_redo.specs.apart.Parts.{DivisionsAreUnconnected, WiresAreEither, UndrivenAreWithin, DrivenAreAtHome};
ghost use Rattle.mp_redo.specs.apart.Parts.{PartsHavePlaces, PartsHaveWires, PartsHaveModules, PartsHaveNoOthers, PartsAreBySlots};
ghost use Rattle.mp_redo.specs.apart.Parts.{PartsHaveDrivers, OthersAreUndriven, PartsAreCircuits};
ghost use Rattle.mp_redo.specs.apart.PartLevels.{PartsHaveLevels, PartsHaveWaves, OthersRest, OthersHaveNoChanges};
ghost use Rattle.mp_redo.specs.apart.PartLevels.{PartsHaveStates, PartsHaveStatesBefore, PartsHaveInputs};
ghost use Rattle.mp_redo.specs.apart.PartWork.{PartsAreRevisions, PartsHaveLeastDelay, PartsHaveWindows, PartsHaveWork, OthersDontWork};

/// No wire connects the parts of a division without inbound wires. A wire that no port drives isn't driven elsewhere, nor is it in the part of its
/// driver.
pub fn parts_are_unconnected()
    ensures divisions { DivisionsAreUnconnected }
    ensures either { WiresAreEither }
    ensures undriven { UndrivenAreWithin }
    ensures home { DrivenAreAtHome }
{}

/// A part has the slots of its netlist, with all wires, and with the modules that are at home there and no others; it is the one such netlist.
pub fn parts_have_slots()
    ensures places { PartsHavePlaces }
    ensures wires { PartsHaveWires }
    ensures modules { PartsHaveModules }
    ensures others { PartsHaveNoOthers }
    ensures slots { PartsAreBySlots }
{}

/// A part is a netlist, in which exactly the wires that other parts drive have no driver.
pub fn parts_are_circuits()
    ensures circuits { PartsAreCircuits }
    ensures drivers { PartsHaveDrivers }
    ensures undriven { OthersAreUndriven }
{}

/// If no wire connects the parts, below the horizon the wires of a part have their levels, and its modules their states. A wire that another part
/// drives stays at its initial level.
pub fn parts_have_levels()
    ensures levels { PartsHaveLevels }
    ensures waves { PartsHaveWaves }
    ensures rest { OthersRest }
    ensures no_changes { OthersHaveNoChanges }
    ensures states { PartsHaveStates }
    ensures before { PartsHaveStatesBefore }
    ensures inputs { PartsHaveInputs }
{}

/// The parts of a revision are revisions. If no wire connects the parts and a part has the least delay of the netlist, it has the windows of the
/// netlist, and in these exactly the work of its own modules.
pub fn parts_have_work()
    ensures revisions { PartsAreRevisions }
    ensures least { PartsHaveLeastDelay }
    ensures windows { PartsHaveWindows }
    ensures work { PartsHaveWork }
    ensures others { OthersDontWork }
{}
