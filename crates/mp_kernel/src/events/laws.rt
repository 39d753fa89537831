//! Laws of the definitions.

ghost use Rattle.mp_kernel.specs.events.Ports.{EventsAddUp};

/// Wires that toggle, each listed once, add to the state of a module the sum of the bits of its events.
pub fn events_add_up()
    ensures { EventsAddUp }
{}

ghost use Rattle.mp_kernel.specs.events.Firing.{SchedulesEach};

/// After events are scheduled, a slot has a wire as often as before, and once more for each of the wire's events there.
pub fn schedules_each()
    ensures { SchedulesEach }
{}
