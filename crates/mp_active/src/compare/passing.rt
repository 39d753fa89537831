//! Steps the timer wheel of old changes.
ghost use Rattle.std.specs.Prelude.{◌≡◌};

use crate::compare::comparison::Comparison;
use crate::compare::old_run::old_changes;
use crate::compare::set_wires::SetWires;
use mp_kernel::LevelChange;
use mp_kernel::timers::laws::comes_up;
use mp_partition::Run;
use std::alloc::AllocError;

impl Comparison {
    ghost use Rattle.std.specs.Prelude.{◌≡◌, ◌==◌, ℕ, ◌+◌, ◌-◌, ◌<◌, ◌^◌, ◌∷◌, [], List, OnOk, length, true, ◌||◌};
    ghost use Rattle.mp_kernel.specs.timers.TimerWheels.{coming, IsTimerWheel};
    ghost use Rattle.mp_partition.specs.runs.Outcomes.{Outcome};
    ghost use Rattle.mp_active.specs.compare.Comparing.{IsShaped, HasCursors, IsOldRun, IsComplete, ArePlaced, is_following, is_tracked, place_at};
    ghost use Rattle.mp_active.specs.compare.Meeting.{is_due};
    ghost use Rattle.mp_active.specs.compare.Passing.{AreSet, HasSet, HasPassed};

    /// The unit of a time begins: of the wires that follow their old waves, those are set that change in it. Numbers that are tracked, and those
    /// of wires that follow, are listed for their next old changes.
    pub fn pass_unit(&mut self, run: &Run, time: u32, set: &mut SetWires) -> Result<(), AllocError>
        requires some { 0 < time }
        requires time { time < 2 ^ 32 - 1 }
        requires cursors { HasCursors run.now (time - 1) [] self.old }
        ensures kept { OnOk result (self.new ≡ record self.old { timers = self.new.timers; present = self.new.present; places = self.new.places }) }
        ensures cursors { OnOk result (HasCursors run.now time [] self.new) }
        ensures complete { OnOk result (IsComplete run.now (time - 1) self.old → IsComplete run.now time self.new) }
        ensures set { OnOk result ((before : ℕ → ℕ → ℕ) → IsOldRun before run.now time → IsComplete run.now (time - 1) self.old → AreSet before time self.old set.old set.new) }
    {
        comes_up();
        self.turn();
        for place in 0..self.present.as_slice().len() {
            let number = self.present.as_slice()[place];
            self.pass(run, number, time, set)?;
        }
        Ok(())
    }

    /// Handles a number that comes up: it has its old change, or is rearmed. It is cancelled if nobody needs its further changes.
    fn pass(
        &mut self,
        run: &Run,
        number: u32,
        time: u32,
        set: &mut SetWires,
    ) -> Result<(), AllocError>
        requires time { time < 2 ^ 32 - 1 }
        requires within { number < length self.old.numbers.wires.items }
        requires cursors { (rest : List ℕ) × HasCursors run.now time (number ∷ rest) self.old }
        ensures kept { OnOk result (self.new ≡ record self.old { timers = self.new.timers; places = self.new.places }) }
        ensures passed { OnOk result (HasPassed run.now time number self.old self.new) }
        ensures set { OnOk result (HasSet run.now time number self.old set.old set.new) }
    {
        if self.timers.time_of(number) > time {
            self.timers.rearm(number, time)?;
            return Ok(());
        }
        self.set_wire(run, number, time, set)?;
        if self.is_needed(number, time) {
            self.list_next(run, number, time)?;
            return Ok(());
        }
        self.timers.cancel(number);
        Ok(())
    }

    /// Whether the old changes of a number are needed in the unit after that of a time.
    #[inline(always)]
    fn is_needed(&self, number: u32, time: u32) -> bool
        requires shape { IsShaped self.now }
        requires time { time < 2 ^ 32 - 1 }
        requires within { number < length self.now.numbers.wires.items }
        ensures { result ≡ (is_following self.now number || is_tracked self.now number time) }
    {
        let wire = self.numbers.wires[number as usize];
        number == wire && self.sources[wire as usize].is_to_follow()
            || self.is_tracked(number, time)
    }

    /// The wire of a number that has its old change at a time is set, if it follows its old wave.
    #[inline(always)]
    fn set_wire(
        &self,
        run: &Run,
        number: u32,
        time: u32,
        set: &mut SetWires,
    ) -> Result<(), AllocError>
        requires shape { IsShaped self.now }
        requires within { number < length self.now.numbers.wires.items }
        requires due { is_due self.now number time ≡ true }
        requires places { ArePlaced run.now time self.now }
        ensures { OnOk result (HasSet run.now time number self.now set.old set.new) }
    {
        let wire = self.numbers.wires[number as usize];
        if number != wire || !self.sources[wire as usize].follows(time) {
            return Ok(());
        }
        if self.numbers.have_data[number as usize] {
            let level = self.old_level(run, number as usize);
            set.levels.push(LevelChange { number, level })?;
            return Ok(());
        }
        set.bits.push(number)?;
        Ok(())
    }

    /// A number that comes up at its time is listed for its next old change, if it has one.
    #[inline(always)]
    fn list_next(&mut self, run: &Run, number: u32, time: u32) -> Result<(), AllocError>
        requires time { time < 2 ^ 32 - 1 }
        requires within { number < length self.old.numbers.wires.items }
        requires due { is_due self.old number time ≡ true }
        requires cursors { (rest : List ℕ) × HasCursors run.now time (number ∷ rest) self.old }
        ensures kept { OnOk result (self.new ≡ record self.old { timers = self.new.timers; places = self.new.places }) }
        ensures passed { OnOk result (HasPassed run.now time number self.old self.new) }
    {
        let changes = old_changes(run, self.numbers.wire_of(number));
        let delay = self.numbers.delay_of(number);
        let place = self.place_of(number) + 1;
        if place >= changes.len() {
            self.timers.cancel(number);
            return Ok(());
        }
        self.places[number as usize] = place as u32;
        self.timers
            .arm(number, changes.time_at(place) + delay, time)?;
        Ok(())
    }

    /// The place of the next old change of a number that is listed.
    #[inline(always)]
    fn place_of(&self, number: u32) -> usize
        requires { number < length self.now.places.items }
        ensures within { result < 2 ^ 32 }
        ensures value { result ≡ place_at self.now number }
    {
        self.places[number as usize] as usize
    }

    /// The numbers are taken out of the timer wheel that come up in the next unit.
    #[inline(always)]
    fn turn(&mut self)
        requires { (run : Outcome) × (t : ℕ) × HasCursors run t [] self.old }
        ensures kept { self.new ≡ record self.old { timers = self.new.timers; present = self.new.present } }
        ensures present { self.new.present ≡ coming self.old.timers }
        ensures times { self.new.timers.times.items ≡ self.old.timers.times.items }
        ensures timers { (t : ℕ) → IsTimerWheel t [] self.old.timers → IsTimerWheel (t + 1) (coming self.old.timers) self.new.timers }
    {
        self.timers.turn(&mut self.present);
    }
}
