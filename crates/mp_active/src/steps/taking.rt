//! What the wheels have of wires that no active module drives is taken out of them.
ghost use Rattle.std.specs.Prelude.{◌≡◌, ◌<◌, ◌+◌, ◌^◌, ◌++◌, [], length, map, OnOk};
ghost use Rattle.std.specs.List.{filter};
ghost use Rattle.mp_kernel.specs.events.Firing.{scheduled};
ghost use Rattle.mp_kernel.specs.datapath.LevelWheels.{scheduled as levels_scheduled};
ghost use Rattle.mp_simulation.specs.bits.Simulators.{slot_at};
ghost use Rattle.mp_simulation.specs.units.DataWheels.{data_slot};
ghost use Rattle.mp_active.specs.steps.Taking.{is_gone, staying, staying_changes, gone_changes, in_slot, in_level_slot, taken_toggle, taken_change, taken_in, HasTaken, HasTakenToggles, HasTakenLevels};

use crate::compare::WireSource;
use mp_kernel::{EventSlot, EventWheel, LevelChange, LevelSlot, LevelWheel, NEVER};
use mp_simulation::{NetlistSimulation, StimulusChange};
use std::alloc::AllocError;

/// Before the unit of a time, takes the changes that come within this number of units, of wires that no active module drives, out of the wheels, and
/// lists them.
pub fn take_changes(
    simulation: &mut NetlistSimulation,
    sources: &[WireSource],
    units: u32,
    time: u32,
    taken: &mut Vec<StimulusChange>,
) -> Result<(), AllocError>
    requires { time + units < 2 ^ 32 }
    ensures wheels { OnOk result (HasTaken (is_gone sources.now) units simulation.old simulation.new) }
    ensures taken { OnOk result (taken.new.items ≡ taken.old.items ++ taken_in (is_gone sources.now) time simulation.old units) }
{
    let alloc = *taken.allocator();
    let mut toggles = EventSlot::new(alloc);
    let mut levels = LevelSlot::new(alloc);
    for k in 0..units {
        take_toggles(simulation, sources, k, time, &mut toggles, taken)?;
        take_levels(simulation, sources, k, time, &mut levels, taken)?;
    }
    Ok(())
}

/// Takes the toggles of one unit of wires of width 1 that no active module drives, and lists them. The slot comes empty and is empty again.
fn take_toggles(
    simulation: &mut NetlistSimulation,
    sources: &[WireSource],
    units: u32,
    time: u32,
    slot: &mut EventSlot,
    taken: &mut Vec<StimulusChange>,
) -> Result<(), AllocError>
    requires low { time + units < 2 ^ 32 }
    requires empty { slot.old ≡ [] }
    ensures wheel { OnOk result (HasTakenToggles (is_gone sources.now) units simulation.old simulation.new) }
    ensures taken { OnOk result (taken.new.items ≡
        taken.old.items ++ map (taken_toggle (time + units)) (filter (is_gone sources.now) (slot_at simulation.old.bits.simulator units))) }
    ensures slot { OnOk result (slot.new ≡ []) }
{
    if simulation.toggles_ahead(units as usize).is_empty() {
        return Ok(());
    }
    let wheel = &mut simulation.bits.simulator.wheel;
    wheel.swap_slot(units as usize, slot);
    put_back_toggles(wheel, sources, slot.as_slice(), units, time, taken)?;
    slot.clear();
    Ok(())
}

/// Takes the changes of one unit of wires with data that no active module drives, and lists them. The slot comes empty and is empty again.
fn take_levels(
    simulation: &mut NetlistSimulation,
    sources: &[WireSource],
    units: u32,
    time: u32,
    slot: &mut LevelSlot,
    taken: &mut Vec<StimulusChange>,
) -> Result<(), AllocError>
    requires low { time + units < 2 ^ 32 }
    requires empty { slot.old ≡ [] }
    ensures wheel { OnOk result (HasTakenLevels (is_gone sources.now) units simulation.old simulation.new) }
    ensures taken { OnOk result (taken.new.items ≡
        taken.old.items ++ map (taken_change (time + units)) (gone_changes (is_gone sources.now) (data_slot simulation.old.wires.wheel units))) }
    ensures slot { OnOk result (slot.new ≡ []) }
{
    if simulation.levels_ahead(units as usize).is_empty() {
        return Ok(());
    }
    let wheel = &mut simulation.wires.wheel;
    wheel.swap_slot(units as usize, slot);
    put_back_levels(wheel, sources, slot.as_slice(), units, time, taken)?;
    slot.clear();
    Ok(())
}

/// Puts the toggles of a slot that stay back, and lists the others.
fn put_back_toggles(
    wheel: &mut EventWheel,
    sources: &[WireSource],
    slot: &[u32],
    units: u32,
    time: u32,
    taken: &mut Vec<StimulusChange>,
) -> Result<(), AllocError>
    requires within { units < length wheel.old }
    requires low { time + units < 2 ^ 32 }
    ensures wheel { OnOk result (wheel.new ≡ scheduled wheel.old (map (in_slot units) (staying (is_gone sources.now) slot.now))) }
    ensures taken { OnOk result (taken.new.items ≡ taken.old.items ++ map (taken_toggle (time + units)) (filter (is_gone sources.now) slot.now)) }
{
    for wire in slot {
        if is_gone(sources, *wire) {
            taken.push(StimulusChange {
                time: time + units,
                wire: *wire,
                has_data: false,
                level: 0,
            })?;
        } else {
            wheel.schedule(units as usize + 1, *wire)?;
        }
    }
    Ok(())
}

/// Puts the changes of a slot that stay back, and lists the others.
fn put_back_levels(
    wheel: &mut LevelWheel,
    sources: &[WireSource],
    slot: &[LevelChange],
    units: u32,
    time: u32,
    taken: &mut Vec<StimulusChange>,
) -> Result<(), AllocError>
    requires within { units < length wheel.old }
    requires low { time + units < 2 ^ 32 }
    ensures wheel { OnOk result (wheel.new ≡ levels_scheduled wheel.old (map (in_level_slot units) (staying_changes (is_gone sources.now) slot.now))) }
    ensures taken { OnOk result (taken.new.items ≡ taken.old.items ++ map (taken_change (time + units)) (gone_changes (is_gone sources.now) slot.now)) }
{
    for change in slot {
        if is_gone(sources, change.number) {
            taken.push(StimulusChange {
                time: time + units,
                wire: change.number,
                has_data: true,
                level: change.level,
            })?;
        } else {
            wheel.schedule(units as usize + 1, *change)?;
        }
    }
    Ok(())
}

/// Whether a number is of a wire that no active module drives, and not of a delayed copy.
fn is_gone(sources: &[WireSource], number: u32) -> bool
    ensures { result ≡ is_gone sources.now number }
{
    match sources.get(number as usize) {
        Some(source) => source.until != NEVER,
        None => false,
    }
}
