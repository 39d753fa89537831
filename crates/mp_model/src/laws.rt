//! Laws of the levels, states, waves and findings of a netlist.

ghost use Rattle.mp_model.specs.FindingLaws.{FindsByRule};
ghost use Rattle.mp_model.specs.Laws.{Satisfies, IsOnlyOne, FollowsPorts, BeginsAtInitialLevels, HasLevels, HaveWidth};

/// The levels and states satisfy their equations, loops of modules included.
pub fn equations()
    ensures { Satisfies }
{}

/// No other levels and states do.
pub fn only_one()
    ensures { IsOnlyOne }
{}

/// A wire that a port drives has the level of the module's output, the port's delay later.
pub fn follows_ports()
    ensures { FollowsPorts }
{}

/// At time 0 a wire has its initial level.
pub fn begins_at_initial_levels()
    ensures { BeginsAtInitialLevels }
{}

/// A wave has the level of its wire at each time below the horizon.
pub fn wave_levels()
    ensures { HasLevels }
{}

/// A level has no more bits than its wire.
pub fn levels_have_width()
    ensures { HaveWidth }
{}

/// A finding is listed exactly if the rule of its code holds at its module or bundle and its time.
pub fn finds_by_rule()
    ensures { FindsByRule }
{}
