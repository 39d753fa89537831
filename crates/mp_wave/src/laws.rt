//! Laws of waveforms.

ghost use Rattle.mp_wave.specs.Laws.{SameByLevels, HoldsLevel, HasLevels, IsInForm, GrowsByHolding, JoinsChanges, KeepsLevels, CutsLevels};
ghost use Rattle.mp_wave.specs.ToggleWaves.{ToggleWavesAreWaves};

/// Two waves with the same level at each time are the same wave.
pub fn same_levels()
    ensures { SameByLevels }
{}

/// A level that is held from a time on is the wave's level from then on, and the levels before stay.
pub fn held_level()
    ensures { HoldsLevel }
{}

/// The wave of a level over time has that level at each time up to its last, and is in form.
pub fn levels_of_wave()
    ensures levels { HasLevels }
    ensures form { IsInForm }
{}

/// A wave that holds the level of each next time is the wave of that level.
pub fn held()
    ensures { GrowsByHolding }
{}

/// The changes of a level over a span are those of its two parts, one after the other.
pub fn changes_join()
    ensures { JoinsChanges }
{}

/// The prefix of a wave up to a time has the wave's levels before that time, and holds the last of them from then on.
pub fn kept_levels()
    ensures { KeepsLevels }
{}

/// The level at a time and the changes after it and before an end give the levels up to that end.
pub fn cut_levels()
    ensures { CutsLevels }
{}

/// The times at which a level of one bit changes determine its wave.
pub fn toggle_waves_are_waves()
    ensures { ToggleWavesAreWaves }
{}
