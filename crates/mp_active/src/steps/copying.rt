//! The delayed copies of a wire that is turned on: what has changed and they have later.
ghost use Rattle.std.specs.Prelude.{◌≡◌, ◌<◌, ◌≤◌, ◌-◌, ◌+◌, ◌∷◌, [], ◌^◌, All, length, nat_lt, slice_set, if◌then◌else◌, OnOk};
ghost use Rattle.mp_wave.specs.Waveform.{level_of};
ghost use Rattle.mp_wave.specs.WaveChanges.{changes_in};
ghost use Rattle.mp_active.specs.steps.Putting.{IsAhead, entries_of};
ghost use Rattle.mp_active.specs.steps.Copying.{HasPutCopy, HasTurnedCopy, IsLate, copy_room, delayed};

use crate::steps::wheel_entries::OldWire;
use mp_kernel::LevelChange;
use mp_simulation::NetlistSimulation;
use mp_wave::WaveChanges;
use std::alloc::AllocError;

/// A delayed copy of a wire: how much later than the wire the number is that is next before it, and how much it is itself.
#[derive(Clone, Copy)]
pub(crate) struct Copied {
    pub number: u32,
    pub sooner: u32,
    pub delay: u32,
}

/// After the unit of a time a copy has its level, and the wheel has the changes that the number before it has had and that it has later.
pub(crate) fn turn_copy_on(
    simulation: &mut NetlistSimulation,
    wire: OldWire<'_>,
    copy: Copied,
    now: u32,
) -> Result<(), AllocError>
    requires late { IsLate wire.has_data copy now simulation.old }
    requires place { copy.number < length simulation.old.wires.levels.items }
    ensures { OnOk result (HasTurnedCopy wire.entry.has_data wire.entry.wave.now copy now simulation.old simulation.new) }
{
    set_copy_level(simulation, wire, copy, now);
    let since = now.saturating_sub(copy.delay);
    let changes = wire.wave.changes_between(since, now - copy.sooner + 1);
    put_copies(simulation, wire.has_data, copy, changes, now)
}

/// After the unit of a time a copy has the level that its wire had before its delay. If that was before time 0, the level stays.
fn set_copy_level(simulation: &mut NetlistSimulation, wire: OldWire<'_>, copy: Copied, now: u32)
    requires place { copy.number < length simulation.old.wires.levels.items }
    ensures bits { simulation.new.bits ≡ simulation.old.bits }
    ensures modules { simulation.new.modules ≡ simulation.old.modules }
    ensures wires { simulation.new.wires ≡ record (simulation.old.wires) { levels = simulation.new.wires.levels } }
    ensures levels { simulation.new.wires.levels.items ≡
        (if nat_lt now copy.delay then simulation.old.wires.levels.items else slice_set simulation.old.wires.levels.items copy.number (level_of wire.entry.wave.now (now - copy.delay))) }
{
    if now >= copy.delay {
        let level = wire.wave.level_at(now - copy.delay);
        simulation.wires.levels[copy.number as usize] = level;
    }
}

/// After the unit of a time, a copy is to have these changes of its wire, so much later.
fn put_copies(
    simulation: &mut NetlistSimulation,
    has_data: bool,
    copy: Copied,
    changes: WaveChanges<'_>,
    now: u32,
) -> Result<(), AllocError>
    requires low { now + copy.delay < 2 ^ 32 }
    requires early { All (λ c. c.0 ≤ now) (changes_in changes) }
    requires within { All (IsAhead now (copy_room has_data simulation.old)) (delayed copy.delay (changes_in changes)) }
    ensures { OnOk result (HasPutCopy has_data (entries_of copy.number now (delayed copy.delay (changes_in changes.entry))) simulation.old simulation.new) }
{
    let mut rest = changes;
    while let Some((change, later)) = rest.split_first() {
        let units = (change.0 + copy.delay - now) as usize;
        put_copy(simulation, has_data, copy.number, units, change.1)?;
        rest = later;
    }
    Ok(())
}

/// Schedules a change of a copy this many units later.
fn put_copy(
    simulation: &mut NetlistSimulation,
    has_data: bool,
    number: u32,
    units: usize,
    level: u64,
) -> Result<(), AllocError>
    requires some { 0 < units }
    requires within { units ≤ copy_room has_data simulation.old }
    ensures { OnOk result (HasPutCopy has_data ((units - 1, record { number = number; level = level }) ∷ []) simulation.old simulation.new) }
{
    if has_data {
        let change = LevelChange { number, level };
        return simulation.wires.wheel.schedule(units, change);
    }
    simulation.bits.copies.wheel.schedule(units, number)
}
