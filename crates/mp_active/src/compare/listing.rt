//! Numbers are listed for their old changes.
ghost use Rattle.std.specs.Prelude.{ℕ, ◌<◌, ◌^◌, ◌-◌, length};
ghost use Rattle.mp_wave.specs.Faults.{pair_at};
ghost use Rattle.mp_active.specs.compare.Listing.{IsCut, IsCount};
ghost use Rattle.mp_active.specs.compare.Comparing.{old_changes};

use crate::compare::comparison::Comparison;
use crate::compare::nearby::find_near;
use crate::compare::old_run::old_changes;
use mp_kernel::NEVER;
use mp_netlist::WireId;
use mp_partition::Run;
use mp_wave::Wave;
use std::alloc::AllocError;

impl Comparison {
    ghost use Rattle.std.specs.Prelude.{◌≡◌, ℕ, ◌<◌, ◌^◌, ◌-◌, [], OnOk, length};
    ghost use Rattle.mp_active.specs.compare.Comparing.{HasCursors, IsListed, asleep_at, wire_of};
    ghost use Rattle.mp_active.specs.compare.Listing.{AreLinked};

    /// A number is listed for its old changes after the unit of a time.
    pub fn list(&mut self, run: &Run, number: u32, now: u32) -> Result<(), AllocError>
        requires within { number < length self.old.numbers.wires.items }
        requires time { now < 2 ^ 32 - 1 }
        requires cursors { HasCursors run.now now [] self.old }
        ensures kept { OnOk result (self.new ≡ record self.old { timers = self.new.timers; places = self.new.places }) }
        ensures cursors { OnOk result (HasCursors run.now now [] self.new) }
        ensures listed { OnOk result (IsListed run.now now self.new number) }
        ensures others { OnOk result ((x : ℕ) → IsListed run.now now self.old x → IsListed run.now now self.new x) }
    {
        if self.timers.time_of(number) != NEVER {
            return Ok(());
        }
        let wire = self.numbers.wire_of(number);
        let delay = self.numbers.delay_of(number);
        let near = self.places[number as usize] as usize;
        let place = old_count(run, wire, delay, near, now);
        let changes = old_changes(run, wire);
        if place >= changes.len() {
            return Ok(());
        }
        self.places[number as usize] = place as u32;
        self.timers
            .arm(number, changes.time_at(place) + delay, now)?;
        Ok(())
    }

    /// Of a wire that may have other levels than in the old run after the unit of a time, those numbers are listed that modules read that sleep.
    pub fn track(&mut self, run: &Run, wire: u32, now: u32) -> Result<(), AllocError>
        requires within { wire < length self.old.sources.items }
        requires time { now < 2 ^ 32 - 1 }
        requires cursors { HasCursors run.now now [] self.old }
        requires linked { AreLinked self.old.numbers }
        ensures kept { OnOk result (self.new ≡ record self.old { timers = self.new.timers; places = self.new.places }) }
        ensures cursors { OnOk result (HasCursors run.now now [] self.new) }
        ensures listed { OnOk result ((x : ℕ) → x < length self.old.numbers.wires.items → wire_of self.old.numbers x ≡ wire → 0 < asleep_at self.old x → IsListed run.now now self.new x) }
        ensures others { OnOk result ((x : ℕ) → IsListed run.now now self.old x → IsListed run.now now self.new x) }
    {
        let mut number = Some(wire);
        while let Some(x) = number {
            if self.asleep_of(x) > 0 {
                self.list(run, x, now)?;
            }
            number = self.numbers.after(x);
        }
        Ok(())
    }
}

/// How many changes a wire had in the old run up to a delay before a time. They are looked for near a place.
fn old_count(run: &Run, wire: u32, delay: u32, near: usize, time: u32) -> usize
    requires { (k : ℕ) → k < length (old_changes run.now wire) → (pair_at (old_changes run.now wire) k).0 < 2 ^ 32 - 1 }
    ensures { IsCount (old_changes run.now wire) delay time result }
{
    if time < delay {
        return 0;
    }
    match run.wave(WireId(wire)) {
        Some(wave) => count_upto(wave, near, time - delay),
        None => 0,
    }
}

/// How many changes of a wave come up to a time. They are looked for near a place, and otherwise among all.
fn count_upto(wave: &Wave, near: usize, time: u32) -> usize
    requires { (k : ℕ) → k < length wave.now.changes → (pair_at wave.now.changes k).0 < 2 ^ 32 - 1 }
    ensures { IsCut time wave.now.changes result }
{
    if let Some(count) = find_near(wave, near, time) {
        return count;
    }
    wave.changes().len() - wave.changes_between(time, u32::MAX).len()
}
