//! What holds of those who wait, and of margins.
ghost use Rattle.mp_questions.specs.timing.TimingLaws.{KeepsOutput, TellsShortSetups};

/// A C-element that waits for an input keeps its output as long as this input keeps its level.
pub fn keeps_output()
    ensures { KeepsOutput }
{}

/// Over all times, the least setup that is measured at a bundle isn't above its own exactly if the report finds a setup at it.
pub fn tells_short_setups()
    ensures { TellsShortSetups }
{}
