//! Which numbers depart from the old run.
ghost use Rattle.std.specs.Prelude.{◌≡◌};

use crate::compare::comparison::Comparison;
use crate::compare::new_changes::NewChanges;
use crate::compare::old_run::old_changes;
use mp_kernel::LevelChange;
use mp_kernel::timers::laws::comes_up;
use mp_partition::Run;
use std::alloc::AllocError;

impl Comparison {
    ghost use Rattle.std.specs.Prelude.{◌≡◌, ℕ, ◌+◌, ◌-◌, ◌<◌, ◌^◌, ◌∷◌, ◌++◌, [], OnOk, length, nat_lt, ◌&&◌, if◌then◌else◌};
    ghost use Rattle.mp_modules.specs.automata.Codes.{bit};
    ghost use Rattle.mp_kernel.specs.timers.TimerWheels.{coming};
    ghost use Rattle.mp_kernel.specs.events.Adding.{listed};
    ghost use Rattle.mp_partition.specs.runs.Outcomes.{Outcome};
    ghost use Rattle.mp_active.specs.compare.Comparing.{IsShaped, ArePlaced, HasCursors, AreUnseen, AreNumbers, AreOfNumbers, AreWithin, bits_of, levels_of, departs, asleep_at, changes_at, place_at, IsOldRun, IsComplete, AgreeFrom, AgreeAsleep, AreNewChanges, HaveLowBits};
    ghost use Rattle.mp_active.specs.compare.Meeting.{old_level, is_old_alone, HasMet, HasMetOld};

    /// Gathers the numbers that modules read that sleep, and that depart at a time, before which they have the levels of the old run: each number
    /// whose level at that time is another in the new run than in the old one is there once. What changes in the new run is given.
    pub fn find_departing(
        &mut self,
        run: &Run,
        coming: &NewChanges<'_>,
        time: u32,
    ) -> Result<(), AllocError>
        requires some { 0 < time }
        requires time { time < 2 ^ 32 - 1 }
        requires cursors { HasCursors run.now (time - 1) [] self.old }
        requires unseen { AreUnseen time self.old }
        requires within { AreWithin self.old.numbers coming.now }
        ensures kept { OnOk result (self.new ≡ record self.old { seen = self.new.seen; departing = self.new.departing }) }
        ensures cursors { OnOk result (HasCursors run.now (time - 1) [] self.new) }
        ensures seen { OnOk result (AreUnseen (time + 1) self.new) }
        ensures departing { OnOk result ((before after : ℕ → ℕ → ℕ) → IsOldRun before run.now time → IsComplete run.now (time - 1) self.old → AgreeFrom before after time self.old → AgreeAsleep before after (time - 1) self.old →
            AreNewChanges after time self.old coming.now → HaveLowBits before after self.old coming.now →
            (x : ℕ) → listed x self.new.departing.items ≡ bit (nat_lt 0 (asleep_at self.old x) && departs before after self.old.numbers x time)) }
    {
        comes_up();
        self.departing.clear();
        self.meet_all_toggles(coming, time)?;
        self.meet_all_levels(run, coming, time)?;
        self.meet_old(time)?;
        Ok(())
    }

    fn meet_all_toggles(&mut self, coming: &NewChanges<'_>, time: u32) -> Result<(), AllocError>
        requires shape { IsShaped self.old }
        requires time { time < 2 ^ 32 - 1 }
        requires within { AreWithin self.old.numbers coming.now }
        ensures { OnOk result ((run : Outcome) → HasMet run time (bits_of coming.now) [] self.old self.new) }
    {
        self.meet_toggles(coming.wires, time)?;
        self.meet_toggles(coming.copies, time)?;
        self.meet_toggles(coming.set, time)?;
        Ok(())
    }

    fn meet_all_levels(
        &mut self,
        run: &Run,
        coming: &NewChanges<'_>,
        time: u32,
    ) -> Result<(), AllocError>
        requires shape { IsShaped self.old }
        requires time { time < 2 ^ 32 - 1 }
        requires places { ArePlaced run.now time self.old }
        requires within { AreWithin self.old.numbers coming.now }
        ensures { OnOk result (HasMet run.now time [] (levels_of coming.now) self.old self.new) }
    {
        self.meet_levels(run, coming.levels, time)?;
        self.meet_levels(run, coming.set_levels, time)?;
        Ok(())
    }

    /// Numbers of width 1 toggle in the new run.
    #[inline(always)]
    fn meet_toggles(&mut self, numbers: &[u32], time: u32) -> Result<(), AllocError>
        requires shape { IsShaped self.old }
        requires time { time < 2 ^ 32 - 1 }
        requires within { AreNumbers self.old.numbers numbers.now }
        ensures { OnOk result ((run : Outcome) → HasMet run time numbers.now [] self.old self.new) }
    {
        for number in numbers {
            self.meet_toggle(*number, time)?;
        }
        Ok(())
    }

    #[inline(always)]
    fn meet_toggle(&mut self, number: u32, time: u32) -> Result<(), AllocError>
        requires shape { IsShaped self.old }
        requires time { time < 2 ^ 32 - 1 }
        requires within { number < length self.old.numbers.wires.items }
        ensures { OnOk result ((run : Outcome) → HasMet run time (number ∷ []) [] self.old self.new) }
    {
        if !self.is_tracked(number, time) {
            return Ok(());
        }
        self.seen[number as usize] = time;
        if self.timers.time_of(number) != time {
            self.departing.push(number)?;
        }
        Ok(())
    }

    /// Numbers with data have other levels in the new run.
    #[inline(always)]
    fn meet_levels(
        &mut self,
        run: &Run,
        levels: &[LevelChange],
        time: u32,
    ) -> Result<(), AllocError>
        requires shape { IsShaped self.old }
        requires time { time < 2 ^ 32 - 1 }
        requires places { ArePlaced run.now time self.old }
        requires within { AreOfNumbers self.old.numbers levels.now }
        ensures { OnOk result (HasMet run.now time [] levels.now self.old self.new) }
    {
        for level in levels {
            self.meet_level(run, *level, time)?;
        }
        Ok(())
    }

    fn meet_level(&mut self, run: &Run, level: LevelChange, time: u32) -> Result<(), AllocError>
        requires shape { IsShaped self.old }
        requires time { time < 2 ^ 32 - 1 }
        requires places { ArePlaced run.now time self.old }
        requires within { level.number < length self.old.numbers.wires.items }
        ensures { OnOk result (HasMet run.now time [] (level ∷ []) self.old self.new) }
    {
        if !self.is_tracked(level.number, time) {
            return Ok(());
        }
        let x = level.number as usize;
        self.seen[x] = time;
        if self.timers.time_of(level.number) != time || self.old_level(run, x) != level.level {
            self.departing.push(level.number)?;
        }
        Ok(())
    }

    /// The level of a number that is listed, from its next old change on.
    #[inline(always)]
    pub(crate) fn old_level(&self, run: &Run, number: usize) -> u64
        requires within { number < length self.now.numbers.wires.items }
        requires shape { IsShaped self.now }
        requires place { place_at self.now number < length (changes_at run.now self.now number) }
        ensures { result ≡ old_level run.now self.now number }
    {
        let changes = old_changes(run, self.numbers.wires[number]);
        changes.level_at(self.places[number] as usize)
    }

    /// Numbers that change in the old run, and weren't seen to do so in the new one.
    #[inline(always)]
    fn meet_old(&mut self, time: u32) -> Result<(), AllocError>
        requires shape { IsShaped self.old }
        requires time { time < 2 ^ 32 - 1 }
        requires within { AreNumbers self.old.numbers (coming self.old.timers) }
        ensures { OnOk result (HasMetOld time self.old self.new) }
    {
        for place in 0..self.timers.coming().len() {
            let number = self.timers.coming()[place];
            self.meet_coming(number, time)?;
        }
        Ok(())
    }

    #[inline(always)]
    fn meet_coming(&mut self, number: u32, time: u32) -> Result<(), AllocError>
        requires shape { IsShaped self.old }
        requires time { time < 2 ^ 32 - 1 }
        requires within { number < length self.old.numbers.wires.items }
        ensures kept { OnOk result (self.new ≡ record self.old { departing = self.new.departing }) }
        ensures departing { OnOk result (self.new.departing.items ≡ (if is_old_alone self.old time number then self.old.departing.items ++ number ∷ [] else self.old.departing.items)) }
    {
        if self.timers.time_of(number) == time
            && self.seen[number as usize] != time
            && self.is_tracked(number, time)
        {
            self.departing.push(number)?;
        }
        Ok(())
    }
}
