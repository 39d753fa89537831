//! Fires modules of width 1.
ghost use Rattle.std.specs.Prelude.{◌≡◌, ℕ, ◌<◌, ◌≤◌, OnOk, All, length, slice_set};
ghost use Rattle.mp_modules.specs.declared.automata.toggles.Toggles.{Toggles as AnyToggles};
ghost use Rattle.mp_modules.specs.automata.Codes.{toggles_code};
ghost use Rattle.mp_kernel.specs.events.Adding.{state_at, listed};
ghost use Rattle.mp_kernel.specs.events.Firing.{UnitState, HasSlot, HaveSlots, scheduled, entry_if, fired_at, ports_at, number_of, next_state, events_of, AreNumbered, HaveFired, fired_by, copied_from, StayElse};
ghost use Rattle.mp_kernel.specs.events.LevelFlips.{levels_at, flipped, HaveFlipped};

use crate::events::EventWheel;
use crate::events::batches::{batch_end, is_large};
use crate::events::output_port::OutputPort;
use crate::events::output_table::OutputTable;
use mp_modules::{AutomatonState, PortLevels, TransitionTable};
use std::alloc::AllocError;

/// If an output toggles, schedules the toggle of its wire after the delay.
#[inline(always)]
pub fn schedule_if(
    toggles: bool,
    port: OutputPort,
    wheel: &mut EventWheel,
) -> Result<(), AllocError>
    requires { HasSlot (length wheel.old) port }
    ensures scheduled { OnOk result (wheel.new ≡ scheduled wheel.old (entry_if toggles port)) }
    ensures places { OnOk result (length wheel.new ≡ length wheel.old) }
{
    match port.wire {
        Some(wire) if toggles => wheel.schedule(port.delay as usize, wire),
        _ => Ok(()),
    }
}

/// Schedules the toggles of the outputs with these bits, of the module at a place.
#[inline(always)]
fn schedule_toggles(
    ports: &OutputTable,
    place: usize,
    toggles: u8,
    wheel: &mut EventWheel,
) -> Result<(), AllocError>
    requires place { place < length ports.now }
    requires slots { HaveSlots (length wheel.old) (ports_at ports.now place) }
    ensures scheduled { OnOk result ((t : AnyToggles) → toggles ≡ toggles_code t → wheel.new ≡ scheduled wheel.old (fired_at (ports_at ports.now place) t)) }
    ensures places { OnOk result (length wheel.new ≡ length wheel.old) }
{
    if toggles == 0 {
        return Ok(());
    }
    schedule_if(toggles % 2 == 1, ports.first(place), wheel)?;
    if toggles < 2 {
        return Ok(());
    }
    schedule_if(toggles / 2 % 2 == 1, ports.second(place), wheel)?;
    schedule_if(toggles / 4 % 2 == 1, ports.third(place), wheel)
}

/// Counts the modules at these places that have a delay at their first output, which all have. This brings their outputs into a cache.
#[inline(always)]
fn count_delayed(ports: &OutputTable, due: &[u32]) -> usize
    requires places { All (λ m. m < length ports.now) due.now }
    requires slots { (units : ℕ) × All (HaveSlots units) ports.now }
    ensures { result ≡ length due.now }
{
    let mut count = 0usize;
    for place in due {
        if ports.first(*place as usize).delay > 0 {
            count += 1;
        }
    }
    count
}

/// The end of the batch of modules that begins at a place. In a large netlist their outputs are read ahead.
#[inline(always)]
fn batch_of_modules(ports: &OutputTable, due: &[u32], from: usize) -> usize
    requires some { from < length due.now }
    requires places { All (λ m. m < length ports.now) due.now }
    requires slots { (units : ℕ) × All (HaveSlots units) ports.now }
    ensures later { from < result }
    ensures within { result ≤ length due.now }
{
    let is_large = is_large(ports.len());
    let to = batch_end(due, from, is_large);
    if is_large {
        from + count_delayed(ports, &due[from..to])
    } else {
        to
    }
}

/// Fires a module after the events of a unit.
#[inline(always)]
fn fire_module(
    table: &TransitionTable,
    ports: &OutputTable,
    states: &mut Vec<AutomatonState>,
    levels: &mut Vec<PortLevels>,
    wheel: &mut EventWheel,
    place: u32,
) -> Result<(), AllocError>
    requires ports { place < length ports.now }
    requires within { All (HaveSlots (length wheel.old)) ports.now }
    requires state { place < length states.old.items }
    requires levels { place < length levels.old.items }
    requires low { state_at states.old.items place < 2112 }
    ensures states { OnOk result ((s : UnitState) → state_at states.old.items place ≡ number_of s → states.new.items ≡ slice_set states.old.items place (next_state s)) }
    ensures levels { OnOk result ((s : UnitState) → state_at states.old.items place ≡ number_of s → levels.new.items ≡ slice_set levels.old.items place (flipped s (levels_at levels.old.items place))) }
    ensures wheel { OnOk result ((s : UnitState) → state_at states.old.items place ≡ number_of s → wheel.new ≡ scheduled wheel.old (events_of s (ports_at ports.now place))) }
    ensures others { OnOk result (StayElse place states.old.items states.new.items) }
    ensures kept { OnOk result (length levels.new.items ≡ length levels.old.items) }
    ensures places { OnOk result (length wheel.new ≡ length wheel.old) }
{
    let m = place as usize;
    let transition = table.of(states[m]);
    states[m] = transition.next;
    levels[m].flip(transition.flips);
    schedule_toggles(ports, m, transition.flips / 16, wheel)
}

/// Fires the modules at these places, each listed once, after the events of a unit: their states become those before the next unit, the levels at
/// their ports change by their events and toggles, and the wires of the outputs that toggle are scheduled. Other states and levels stay.
pub fn fire_modules(
    table: &TransitionTable,
    ports: &OutputTable,
    states: &mut Vec<AutomatonState>,
    levels: &mut Vec<PortLevels>,
    wheel: &mut EventWheel,
    due: &[u32],
) -> Result<(), AllocError>
    requires ports { All (λ m. m < length ports.now) due.now }
    requires within { All (HaveSlots (length wheel.old)) ports.now }
    requires states { All (λ m. m < length states.old.items) due.now }
    requires levels { length levels.old.items ≡ length states.old.items }
    requires low { (m : ℕ) → state_at states.old.items m < 2112 }
    requires once { (m : ℕ) → listed m due.now ≤ 1 }
    ensures kept { OnOk result (length states.new.items ≡ length states.old.items) }
    ensures states { OnOk result ((state_of : ℕ → UnitState) → AreNumbered states.old.items state_of → HaveFired state_of due.now states.old.items states.new.items) }
    ensures levels { OnOk result ((state_of : ℕ → UnitState) → AreNumbered states.old.items state_of → HaveFlipped state_of due.now levels.old.items levels.new.items) }
    ensures same { OnOk result (length levels.new.items ≡ length levels.old.items) }
    ensures wheel { OnOk result ((state_of : ℕ → UnitState) → AreNumbered states.old.items state_of → wheel.new ≡ scheduled wheel.old (fired_by state_of ports.now due.now)) }
    ensures places { OnOk result (length wheel.new ≡ length wheel.old) }
{
    let mut from = 0;
    while from < due.len() {
        let to = batch_of_modules(ports, due, from);
        for place in from..to {
            fire_module(table, ports, states, levels, wheel, due[place])?;
        }
        from = to;
    }
    Ok(())
}

/// Schedules the toggles of delayed copies after these wires or copies have toggled: the next copy of each, if there is one, toggles after its delay.
#[inline(always)]
pub fn schedule_copies(
    copies: &[OutputPort],
    wheel: &mut EventWheel,
    wires: &[u32],
) -> Result<(), AllocError>
    requires copies { All (λ w. w < length copies.now) wires.now }
    requires within { All (HasSlot (length wheel.old)) copies.now }
    ensures scheduled { OnOk result (wheel.new ≡ scheduled wheel.old (copied_from copies.now wires.now)) }
    ensures places { OnOk result (length wheel.new ≡ length wheel.old) }
{
    for wire in wires {
        schedule_if(true, copies[*wire as usize], wheel)?;
    }
    Ok(())
}
