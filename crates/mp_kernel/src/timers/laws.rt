//! Laws of timer wheels.

ghost use Rattle.mp_kernel.specs.timers.TimerWheels.{ComesUp, ListedCome};

/// A number whose time is the next unit comes up in it at the latest.
pub fn comes_up()
    ensures { ComesUp }
{}

/// Numbers that come up are armed, and their times aren't past.
pub fn listed_come()
    ensures { ListedCome }
{}
