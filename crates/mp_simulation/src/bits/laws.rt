//! Laws of changes: when wires change, which events modules have, and what they schedule.

ghost use Rattle.mp_simulation.specs.bits.ChangeLaws.{PortsChange, PortsBegin, PortsWait, InputsChange, RestsWithoutEvents, WavesGrow, TracesGrow, StatesStay};
ghost use Rattle.mp_simulation.specs.bits.PortEvents.{PortsHaveEvents};
ghost use Rattle.mp_simulation.specs.bits.Advancing.{StatesAdvance};
ghost use Rattle.mp_simulation.specs.bits.Schedules.{FiringSchedules, FiringLeavesOthers};
ghost use Rattle.mp_simulation.specs.bits.Widths.{HaveBits};
ghost use Rattle.mp_simulation.specs.bits.UnitLaws.{CanApplyWhenDue};
ghost use Rattle.mp_simulation.specs.bits.WholeRuns.{SlotsHaveAll};
ghost use Rattle.mp_simulation.specs.bits.Simulations.{CanGoOn, StaysIdle};
ghost use Rattle.mp_simulation.specs.bits.Beginnings.{FirstAreKnown, NoCopiesAtFirst};

/// A wire that a port drives changes if the module's output did, the port's delay before: first if the settled level isn't the initial one, and never
/// before its delay is over.
pub fn ports_change()
    ensures later { PortsChange }
    ensures first { PortsBegin }
    ensures before { PortsWait }
{}

/// An input has an event if its wire changed, the input's delay before.
pub fn inputs_change()
    ensures { InputsChange }
{}

/// The ports of a module have its events if each wire that it reads, or the delayed copy of one, is listed once if it changes, and otherwise not.
pub fn ports_have_events()
    ensures { PortsHaveEvents }
{}

/// A module of width 1 that has no event in a unit stays in its phase, and no output of it toggles.
pub fn rests_without_events()
    ensures { RestsWithoutEvents }
{}

/// A state of a module stays while its inputs have the levels that it holds.
pub fn states_stay()
    ensures { StatesStay }
{}

/// A module of width 1 that has had its events steps to its next phase, and exactly those outputs toggle that differ.
pub fn states_advance()
    ensures { StatesAdvance }
{}

/// The wave of a wire of width 1 up to the next unit is one toggle more if the wire changes there, and otherwise the same; and so is what is kept of
/// the changes of any wire.
pub fn waves_grow()
    ensures waves { WavesGrow }
    ensures traces { TracesGrow }
{}

/// When modules fire, a wire that an active one drives comes once more into the slot of the change that this decides, if it has that change, and no
/// other wire comes into any slot.
pub fn firing_schedules()
    ensures driven { FiringSchedules }
    ensures others { FiringLeavesOthers }
{}

/// A module of width 1 has ports of width 1, and levels of one bit at all times.
pub fn modules_have_bits()
    ensures { HaveBits }
{}

/// A simulator before a unit of a netlist can apply the changes of that unit.
pub fn applies_what_is_due()
    ensures { CanApplyWhenDue }
{}

/// In an evaluation that follows no other, the next slots of the wheel and of the copies' wheel, and the wires that stimuli change, are all that
/// changes in a unit.
pub fn slots_have_all()
    ensures { SlotsHaveAll }
{}

/// In an evaluation that follows no other, what changes in the next unit can be applied.
pub fn can_go_on()
    ensures { CanGoOn }
{}

/// If nothing is known to change, a unit in which nothing is set is over without a step.
pub fn stays_idle()
    ensures { StaysIdle }
{}

/// Before unit 1 the wheel has the known changes if each wire whose settled level isn't its initial one is in the slot of its first change; and no
/// delayed copy has a change to come.
pub fn begins_with_first_changes()
    ensures events { FirstAreKnown }
    ensures copies { NoCopiesAtFirst }
{}
