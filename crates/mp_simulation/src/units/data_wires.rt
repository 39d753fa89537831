//! Wires with data.
ghost use Rattle.std.specs.Prelude.{◌≡◌, ℕ, ◌-◌, ◌<◌, ◌≤◌, ◌^◌, ◌++◌, OnOk, All, length, map, slice_set};
ghost use Rattle.mp_simulation.specs.units.DataLevels.{changes_of, number_of_change};
ghost use Rattle.mp_simulation.specs.units.DataWaves.{building_at, with_level, pushed};

use mp_kernel::{
    LevelChange, LevelSlot, LevelWheel, OutputPort, schedule_level_copies, set_levels,
    toggle_levels,
};
use mp_wave::WaveBuilder;
use std::alloc::AllocError;

/// The levels of all numbers: of wires, and after them of their delayed copies. For wires with data and their copies it also has the next copy after
/// each number, the changes to come, those of the present unit, and each wire's wave. The numbers that modules hear of in the present unit, beside
/// the wires of width 1, are listed.
#[derive(Drop)]
pub struct DataWires {
    pub levels: Vec<u64>,
    pub next: Vec<OutputPort>,
    pub wheel: LevelWheel,
    pub present: LevelSlot,
    pub waves: Vec<WaveBuilder>,
    pub heard: Vec<u32>,
}

impl DataWires {
    ghost use Rattle.std.specs.Prelude.{◌≡◌, ℕ, ◌-◌, ◌<◌, ◌≤◌, ◌^◌, ◌++◌, ◌∷◌, [], OnOk, All, drop, length, map};
    ghost use Rattle.mp_kernel.specs.events.Firing.{HasSlot};
    ghost use Rattle.mp_kernel.specs.datapath.Levels.{toggled, changed};
    ghost use Rattle.mp_kernel.specs.datapath.LevelWheels.{scheduled, copied_from};
    ghost use Rattle.mp_simulation.specs.units.DataLevels.{changes_of, number_of_change};
    ghost use Rattle.mp_simulation.specs.units.DataWaves.{building_at, pushed};
    ghost use Rattle.mp_simulation.specs.units.DataWheels.{data_slot};

    /// Begins the next unit with the changes of its slot and these changes from outside. Modules are notified of them, and of the copies of wires of
    /// width 1 that toggle.
    pub fn begin_unit(&mut self, late: &[u32], set: &[LevelChange]) -> Result<(), AllocError>
        requires { 0 < length self.old.wheel }
        ensures present { OnOk result (self.new.present ≡ data_slot self.old.wheel 0 ++ set.now) }
        ensures wheel { OnOk result (self.new.wheel ≡ drop 1 self.old.wheel ++ [] ∷ []) }
        ensures heard { OnOk result (self.new.heard.items ≡ late.now ++ map number_of_change self.new.present) }
        ensures levels { OnOk result (self.new.levels.items ≡ self.old.levels.items) }
        ensures next { OnOk result (self.new.next.items ≡ self.old.next.items) }
        ensures waves { OnOk result (self.new.waves.items ≡ self.old.waves.items) }
    {
        self.wheel.turn(&mut self.present);
        self.present.extend_from_slice(set)?;
        self.heard.clear();
        list_all(&mut self.heard, late)?;
        list_numbers(&mut self.heard, self.present.as_slice())
    }

    /// The numbers get the levels that they have in the present unit, if these wires of width 1 and these copies of such toggle.
    pub fn apply(&mut self, wires: &[u32], late: &[u32], time: u32) -> Result<(), AllocError>
        requires wires { All (λ x. x < length self.old.levels.items) wires.now }
        requires late { All (λ x. x < length self.old.levels.items) late.now }
        requires present { All (λ c. c.number < length self.old.levels.items) self.old.present }
        requires once { (w : ℕ) → changes_of w self.old.present ≤ 1 }
        requires over { (w : ℕ) → (building_at self.old.waves.items w).next ≤ time }
        requires low { time < 2 ^ 32 - 1 }
        ensures levels { OnOk result (self.new.levels.items ≡ changed (toggled (toggled self.old.levels.items wires.now) late.now) self.old.present) }
        ensures waves { OnOk result (self.new.waves.items ≡ pushed self.old.waves.items time self.old.present) }
        ensures present { OnOk result (self.new.present ≡ self.old.present) }
        ensures wheel { OnOk result (self.new.wheel ≡ self.old.wheel) }
        ensures next { OnOk result (self.new.next.items ≡ self.old.next.items) }
    {
        toggle_levels(&mut self.levels, wires);
        toggle_levels(&mut self.levels, late);
        set_levels(&mut self.levels, self.present.as_slice());
        push_levels(&mut self.waves, self.present.as_slice(), time)
    }

    /// Schedules the levels of the next copies after the numbers that change in the present unit.
    pub fn advance(&mut self) -> Result<(), AllocError>
        requires present { All (λ c. c.number < length self.old.next.items) self.old.present }
        requires within { All (HasSlot (length self.old.wheel)) self.old.next.items }
        ensures wheel { OnOk result (self.new.wheel ≡ scheduled self.old.wheel (copied_from self.old.next.items self.old.present)) }
        ensures places { OnOk result (length self.new.wheel ≡ length self.old.wheel) }
        ensures levels { OnOk result (self.new.levels.items ≡ self.old.levels.items) }
        ensures next { OnOk result (self.new.next.items ≡ self.old.next.items) }
        ensures waves { OnOk result (self.new.waves.items ≡ self.old.waves.items) }
    {
        schedule_level_copies(
            self.next.as_slice(),
            &mut self.wheel,
            self.present.as_slice(),
        )
    }
}

/// Lists these numbers. Mostly there are none.
#[inline(always)]
fn list_all(heard: &mut Vec<u32>, numbers: &[u32]) -> Result<(), AllocError>
    ensures { OnOk result (heard.new.items ≡ heard.old.items ++ numbers.now) }
{
    if numbers.is_empty() {
        return Ok(());
    }
    heard.extend_from_slice(numbers)?;
    Ok(())
}

/// Lists the numbers of changes.
fn list_numbers(heard: &mut Vec<u32>, changes: &[LevelChange]) -> Result<(), AllocError>
    ensures { OnOk result (heard.new.items ≡ heard.old.items ++ map number_of_change changes.now) }
{
    for change in changes {
        heard.push(change.number)?;
    }
    Ok(())
}

/// A wire's wave has a level from a time on, if it is a wire's number.
#[inline(always)]
fn push_level(
    waves: &mut Vec<WaveBuilder>,
    change: LevelChange,
    time: u32,
) -> Result<(), AllocError>
    requires over { (building_at waves.old.items change.number).next ≤ time }
    requires low { time < 2 ^ 32 - 1 }
    ensures { OnOk result (waves.new.items ≡ slice_set waves.old.items change.number (with_level (building_at waves.old.items change.number) time change.level)) }
{
    let number = change.number as usize;
    if number < waves.len() {
        waves[number].push_level(time, change.level)?;
    }
    Ok(())
}

/// Wires' waves have levels from a time on, each once.
fn push_levels(
    waves: &mut Vec<WaveBuilder>,
    changes: &[LevelChange],
    time: u32,
) -> Result<(), AllocError>
    requires once { (w : ℕ) → changes_of w changes.now ≤ 1 }
    requires over { (w : ℕ) → (building_at waves.old.items w).next ≤ time }
    requires low { time < 2 ^ 32 - 1 }
    ensures { OnOk result (waves.new.items ≡ pushed waves.old.items time changes.now) }
{
    for change in changes {
        push_level(waves, *change, time)?;
    }
    Ok(())
}
