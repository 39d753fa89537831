//! Laws of the automata.

ghost use Rattle.mp_modules.specs.automata.AutomatonLaws.{ReactsAsModule, LevelsFollow};

/// A module of width 1 steps as its automaton does: its outputs toggle alike, and its phase follows.
pub fn reacts_as_module()
    ensures { ReactsAsModule }
{}

/// The levels at the ports of a module of width 1 change at the inputs that have an event and at the outputs that toggle.
pub fn levels_follow()
    ensures { LevelsFollow }
{}
