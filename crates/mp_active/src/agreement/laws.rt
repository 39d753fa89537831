//! What an old run and a new one have in common.

ghost use Rattle.mp_active.specs.agreement.Sleeping.{SleepersAgree, SleepersSleepOn, ModulesFallAsleep};
ghost use Rattle.mp_active.specs.agreement.Sources.{SleepersDriveAlike, WiresAgree};
ghost use Rattle.mp_active.specs.agreement.Reading.{InputsAreLate, QuietWhereAlike, SleepersReadAlike};
ghost use Rattle.mp_active.specs.agreement.Resting.{SleepersRest, UntouchedAreKept};

/// The states of a module that sleeps agree. It sleeps on if it isn't apart, and a module whose states agree can fall asleep.
pub fn sleepers_agree()
    ensures agree { SleepersAgree }
    ensures on { SleepersSleepOn }
    ensures fall { ModulesFallAsleep }
{}

/// A wire has the levels of the old run if its driver has been asleep for the delay of its port, or if no port drives it and it is driven alike.
pub fn wires_agree()
    ensures sleepers { SleepersDriveAlike }
    ensures wires { WiresAgree }
{}

/// A module is apart exactly if one of its inputs has another level. The inputs of a module that sleeps have the levels of the old run.
pub fn readers_agree()
    ensures inputs { InputsAreLate }
    ensures quiet { QuietWhereAlike }
    ensures sleepers { SleepersReadAlike }
{}

/// A module that sleeps isn't at work.
pub fn sleepers_rest()
    ensures rest { SleepersRest }
    ensures kept { UntouchedAreKept }
{}
