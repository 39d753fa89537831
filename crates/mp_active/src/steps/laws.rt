//! Laws of what is put into the wheels and taken out of them.

ghost use Rattle.mp_active.specs.steps.Ahead.{OldChangesAreAhead, SpansJoin, PutsAhead, NoneAhead, RestingHaveNothing};
ghost use Rattle.mp_active.specs.steps.Activated.{BitModulesActivate, DataModulesActivate};
ghost use Rattle.mp_active.specs.steps.Taking.{SleepingLeaves, PutsBack, PutsLevelsBack, ListsTaken};
ghost use Rattle.mp_active.specs.steps.Sleeping.{NoneAsleep, PutsMoreToSleep};
ghost use Rattle.mp_active.specs.steps.Tails.{TakesTails};
ghost use Rattle.mp_active.specs.steps.TurningOn.{WiresCanTurnOn};

/// The changes of a wave between two times, while a wire has its levels, are those of the wire.
pub fn old_changes_are_ahead()
    ensures { OldChangesAreAhead }
{}

/// The changes of two spans that meet are those of one span: so those of a tail and those of the old run that follow.
pub fn spans_join()
    ensures { SpansJoin }
{}

/// The known changes of a wire are put into wheels that have none of them, as is the case if its module isn't active.
pub fn puts_ahead()
    ensures puts { PutsAhead }
    ensures none { NoneAhead }
    ensures resting { RestingHaveNothing }
{}

/// A module of width 1 that has taken its place is active once its wires are ahead.
pub fn bit_modules_activate()
    ensures { BitModulesActivate }
{}

/// So is a module with data that has taken a seat.
pub fn data_modules_activate()
    ensures { DataModulesActivate }
{}

/// Each wire of a netlist can be turned on in a simulation that shows it.
pub fn wires_can_turn_on()
    ensures { WiresCanTurnOn }
{}

/// Modules are put to sleep one after the other.
pub fn puts_to_sleep()
    ensures none { NoneAsleep }
    ensures more { PutsMoreToSleep }
{}

/// Modules that are put to sleep have left once their wires are taken out of the wheels.
pub fn sleeping_leaves()
    ensures { SleepingLeaves }
{}

/// A slot that was emptied has exactly what is put back into it.
pub fn puts_back()
    ensures toggles { PutsBack }
    ensures levels { PutsLevelsBack }
{}

/// The changes listed for the wires that are taken out are exactly those that the wheels had.
pub fn lists_taken()
    ensures { ListsTaken }
{}

/// What is taken out if modules leave are the changes of their wires that are decided, each once.
pub fn takes_tails()
    ensures { TakesTails }
{}
