//! Fires modules with data.
ghost use Rattle.std.specs.Prelude.{◌≡◌, ℕ, ◌<◌, ◌≤◌, Some, OnOk, All, length};
ghost use Rattle.mp_kernel.specs.events.Adding.{listed};
ghost use Rattle.mp_kernel.specs.events.Firing.{scheduled};
ghost use Rattle.mp_kernel.specs.datapath.LevelWheels.{scheduled as levels_scheduled};
ghost use Rattle.mp_kernel.specs.datapath.DataModules.{CanFire, stepped, events_of, changes_of};
ghost use Rattle.mp_kernel.specs.datapath.DataFiring.{ArePlaced, HaveStepped, stepped_in, events_in, changes_in, fired_by, changed_by};

use crate::datapath::LevelWheel;
use crate::datapath::data_module::DataModule;
use crate::datapath::level_scheduling::schedule_level_if;
use crate::events::{EventWheel, schedule_if};
use std::alloc::AllocError;

/// Steps a module to the unit in which numbers have these levels, and schedules its outputs.
#[inline(always)]
fn fire_data_module(
    state: &mut DataModule,
    levels: &[u64],
    events: &mut EventWheel,
    changes: &mut LevelWheel,
) -> Result<(), AllocError>
    requires { CanFire (length levels.now) (length events.old) (length changes.old) state.old }
    ensures state { OnOk result (state.new ≡ stepped levels.now state.old) }
    ensures events { OnOk result (events.new ≡ scheduled events.old (events_of levels.now state.old)) }
    ensures changes { OnOk result (changes.new ≡ levels_scheduled changes.old (changes_of levels.now state.old)) }
    ensures units { OnOk result (length events.new ≡ length events.old) }
    ensures slots { OnOk result (length changes.new ≡ length changes.old) }
{
    let before = state.outputs;
    state.step(levels);
    let level = state.outputs.first;
    if before.first != level {
        schedule_level_if(true, state.ports.level, level, changes)?;
        schedule_if(true, state.ports.bits.first, events)?;
    }
    schedule_if(
        before.second != state.outputs.second,
        state.ports.bits.second,
        events,
    )?;
    schedule_if(
        before.third != state.outputs.third,
        state.ports.bits.third,
        events,
    )?;
    Ok(())
}

/// Fires the module with this number, if there is one, in the unit in which numbers have these levels.
#[inline(always)]
fn fire_number(
    number: Option<u32>,
    modules: &mut Vec<DataModule>,
    levels: &[u64],
    events: &mut EventWheel,
    changes: &mut LevelWheel,
) -> Result<(), AllocError>
    requires number { (k : ℕ) → number ≡ Some k → k < length modules.old.items }
    requires fit { All (CanFire (length levels.now) (length events.old) (length changes.old)) modules.old.items }
    ensures modules { OnOk result (modules.new.items ≡ stepped_in levels.now modules.old.items number) }
    ensures events { OnOk result (events.new ≡ scheduled events.old (events_in levels.now modules.old.items number)) }
    ensures changes { OnOk result (changes.new ≡ levels_scheduled changes.old (changes_in levels.now modules.old.items number)) }
    ensures units { OnOk result (length events.new ≡ length events.old) }
    ensures slots { OnOk result (length changes.new ≡ length changes.old) }
{
    match number {
        Some(number) => fire_data_module(&mut modules[number as usize], levels, events, changes),
        None => Ok(()),
    }
}

/// Fires the modules with data at these places, each listed once, in the unit in which numbers have these levels. Each place has the number of its
/// module among those with data, if it has one.
pub fn fire_data_modules(
    places: &[Option<u32>],
    modules: &mut Vec<DataModule>,
    levels: &[u64],
    events: &mut EventWheel,
    changes: &mut LevelWheel,
    due: &[u32],
) -> Result<(), AllocError>
    requires due { All (λ q. q < length places.now) due.now }
    requires once { (q : ℕ) → listed q due.now ≤ 1 }
    requires placed { ArePlaced places.now (length modules.old.items) }
    requires fit { All (CanFire (length levels.now) (length events.old) (length changes.old)) modules.old.items }
    ensures modules { OnOk result (HaveStepped levels.now places.now due.now modules.old.items modules.new.items) }
    ensures events { OnOk result (events.new ≡ scheduled events.old (fired_by levels.now places.now modules.old.items due.now)) }
    ensures changes { OnOk result (changes.new ≡ levels_scheduled changes.old (changed_by levels.now places.now modules.old.items due.now)) }
    ensures units { OnOk result (length events.new ≡ length events.old) }
    ensures slots { OnOk result (length changes.new ≡ length changes.old) }
{
    if modules.is_empty() {
        return Ok(());
    }
    for place in due {
        fire_number(places[*place as usize], modules, levels, events, changes)?;
    }
    Ok(())
}
