//! Laws of simulations: what they know of the units to come.

ghost use Rattle.mp_simulation.specs.units.Ahead.{TogglesAhead, LevelsAhead, LevelsAreRight};

/// As far as a simulation knows, exactly those wires change a number of units after the next one that ports with longer delays drive, and they get
/// the levels that they have then.
pub fn changes_ahead()
    ensures toggles { TogglesAhead }
    ensures changes { LevelsAhead }
    ensures levels { LevelsAreRight }
{}
