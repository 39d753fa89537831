//! A module becomes active, or falls asleep.
ghost use Rattle.std.specs.Prelude.{◌≡◌};

use crate::compare::comparison::Comparison;
use mp_kernel::NEVER;
use mp_netlist::Output;
use mp_partition::Run;
use std::alloc::AllocError;

impl Comparison {
    ghost use Rattle.std.specs.Prelude.{◌≡◌, ◌==◌, ℕ, ◌+◌, ◌-◌, ◌<◌, ◌^◌, [], ◌∷◌, All, Some, OnOk, length, if◌then◌else◌, true};
    ghost use Rattle.mp_kernel.specs.events.Adding.{listed};
    ghost use Rattle.mp_active.specs.compare.Comparing.{IsShaped, HasCursors, IsComplete, asleep_at, source_at};
    ghost use Rattle.mp_active.specs.compare.Listing.{AreLinked};
    ghost use Rattle.mp_active.specs.compare.Waking.{number_in, numbers_in, AreReadAsleep, IsSourceOf, AreSourcesOf, HaveOwnWires, HasOwnLevels, HaveOwnLevels, woken, slept, turned_on, from_then};

    /// A wire is on after the unit of a time.
    pub fn follow(&mut self, run: &Run, wire: u32, now: u32) -> Result<(), AllocError>
        requires within { wire < length self.old.sources.items }
        requires time { now < 2 ^ 32 - 1 }
        requires cursors { HasCursors run.now now [] self.old }
        ensures kept { OnOk result (self.new ≡ record self.old { sources = self.new.sources; timers = self.new.timers; places = self.new.places }) }
        ensures cursors { OnOk result (HasCursors run.now now [] self.new) }
        ensures complete { OnOk result (IsComplete run.now now self.old → IsComplete run.now now self.new) }
        ensures sources { OnOk result ((w : ℕ) → source_at self.new w ≡ (if w == wire then turned_on (source_at self.old w) else source_at self.old w)) }
    {
        self.set_on(wire);
        if !self.sources[wire as usize].is_to_follow() {
            return Ok(());
        }
        self.list(run, wire, now)?;
        Ok(())
    }

    /// A module that reads these numbers isn't asleep any more after the unit of a time, and its wires have levels of their own.
    pub fn wake(
        &mut self,
        run: &Run,
        inputs: &[Option<u32>],
        outputs: &[Output],
        now: u32,
    ) -> Result<(), AllocError>
        requires time { now < 2 ^ 32 - 1 }
        requires cursors { HasCursors run.now now [] self.old }
        requires linked { AreLinked self.old.numbers }
        requires counted { AreReadAsleep (numbers_in inputs.now) self.old }
        requires within { AreSourcesOf outputs.now self.old }
        ensures kept { OnOk result (self.new ≡ record self.old { sources = self.new.sources; asleep = self.new.asleep; timers = self.new.timers; places = self.new.places }) }
        ensures cursors { OnOk result (HasCursors run.now now [] self.new) }
        ensures complete { OnOk result (IsComplete run.now now self.old → IsComplete run.now now self.new) }
        ensures asleep { OnOk result ((x : ℕ) → asleep_at self.new x + listed x (numbers_in inputs.now) ≡ asleep_at self.old x) }
        ensures sources { OnOk result ((w : ℕ) → source_at self.new w ≡ woken outputs.now w (source_at self.old w)) }
    {
        self.read_awake(inputs);
        self.let_all_differ(run, outputs, now)?;
        Ok(())
    }

    /// A module that reads these numbers falls asleep before the unit of a time, and its wires have levels of the old run after their delays.
    pub fn fall_asleep(
        &mut self,
        run: &Run,
        inputs: &[Option<u32>],
        outputs: &[Output],
        time: u32,
    ) -> Result<(), AllocError>
        requires some { 0 < time }
        requires time { time + 2 ^ 16 < 2 ^ 32 - 1 }
        requires cursors { HasCursors run.now (time - 1) [] self.old }
        requires few { (x : ℕ) → asleep_at self.old x + listed x (numbers_in inputs.now) < 2 ^ 32 }
        requires read { All (λ x. x < length self.old.numbers.wires.items) (numbers_in inputs.now) }
        requires within { AreSourcesOf outputs.now self.old }
        requires apart { HaveOwnWires outputs.now }
        requires own { HaveOwnLevels outputs.now self.old }
        ensures kept { OnOk result (self.new ≡ record self.old { sources = self.new.sources; asleep = self.new.asleep; timers = self.new.timers; places = self.new.places }) }
        ensures cursors { OnOk result (HasCursors run.now (time - 1) [] self.new) }
        ensures complete { OnOk result (IsComplete run.now (time - 1) self.old → IsComplete run.now (time - 1) self.new) }
        ensures asleep { OnOk result ((x : ℕ) → asleep_at self.new x ≡ asleep_at self.old x + listed x (numbers_in inputs.now)) }
        ensures sources { OnOk result ((w : ℕ) → source_at self.new w ≡ slept outputs.now time w (source_at self.old w)) }
    {
        self.read_all_asleep(run, inputs, time)?;
        self.let_all_follow(run, outputs, time)?;
        Ok(())
    }

    /// Inputs that read these numbers aren't asleep any more.
    fn read_awake(&mut self, inputs: &[Option<u32>])
        requires shape { IsShaped self.old }
        requires counted { AreReadAsleep (numbers_in inputs.now) self.old }
        ensures kept { self.new ≡ record self.old { asleep = self.new.asleep } }
        ensures places { length self.new.asleep.items ≡ length self.old.asleep.items }
        ensures asleep { (x : ℕ) → asleep_at self.new x + listed x (numbers_in inputs.now) ≡ asleep_at self.old x }
    {
        for input in inputs {
            self.read_one_awake(*input);
        }
    }

    #[inline(always)]
    fn read_one_awake(&mut self, input: Option<u32>)
        requires shape { IsShaped self.old }
        requires counted { AreReadAsleep (number_in input []) self.old }
        ensures kept { self.new ≡ record self.old { asleep = self.new.asleep } }
        ensures places { length self.new.asleep.items ≡ length self.old.asleep.items }
        ensures asleep { (x : ℕ) → asleep_at self.new x + listed x (number_in input []) ≡ asleep_at self.old x }
    {
        let Some(number) = input else {
            return;
        };
        self.asleep[number as usize] -= 1;
    }

    /// Inputs that read these numbers are asleep before the unit of a time.
    fn read_all_asleep(
        &mut self,
        run: &Run,
        inputs: &[Option<u32>],
        time: u32,
    ) -> Result<(), AllocError>
        requires some { 0 < time }
        requires time { time < 2 ^ 32 - 1 }
        requires cursors { HasCursors run.now (time - 1) [] self.old }
        requires few { (x : ℕ) → asleep_at self.old x + listed x (numbers_in inputs.now) < 2 ^ 32 }
        requires read { All (λ x. x < length self.old.numbers.wires.items) (numbers_in inputs.now) }
        ensures kept { OnOk result (self.new ≡ record self.old { asleep = self.new.asleep; timers = self.new.timers; places = self.new.places }) }
        ensures cursors { OnOk result (HasCursors run.now (time - 1) [] self.new) }
        ensures complete { OnOk result (IsComplete run.now (time - 1) self.old → IsComplete run.now (time - 1) self.new) }
        ensures asleep { OnOk result ((x : ℕ) → asleep_at self.new x ≡ asleep_at self.old x + listed x (numbers_in inputs.now)) }
    {
        for input in inputs {
            self.read_one_asleep(run, *input, time)?;
        }
        Ok(())
    }

    fn read_one_asleep(
        &mut self,
        run: &Run,
        input: Option<u32>,
        time: u32,
    ) -> Result<(), AllocError>
        requires some { 0 < time }
        requires time { time < 2 ^ 32 - 1 }
        requires cursors { HasCursors run.now (time - 1) [] self.old }
        requires few { (x : ℕ) → asleep_at self.old x + listed x (number_in input []) < 2 ^ 32 }
        requires read { All (λ x. x < length self.old.numbers.wires.items) (number_in input []) }
        ensures kept { OnOk result (self.new ≡ record self.old { asleep = self.new.asleep; timers = self.new.timers; places = self.new.places }) }
        ensures cursors { OnOk result (HasCursors run.now (time - 1) [] self.new) }
        ensures complete { OnOk result (IsComplete run.now (time - 1) self.old → IsComplete run.now (time - 1) self.new) }
        ensures asleep { OnOk result ((x : ℕ) → asleep_at self.new x ≡ asleep_at self.old x + listed x (number_in input [])) }
    {
        let Some(number) = input else {
            return Ok(());
        };
        self.count_asleep(number);
        if !self.is_tracked(number, time) {
            return Ok(());
        }
        self.list(run, number, time - 1)?;
        Ok(())
    }

    /// One more input that reads a number is asleep.
    #[inline(always)]
    fn count_asleep(&mut self, number: u32)
        requires within { number < length self.old.asleep.items }
        requires few { asleep_at self.old number + 1 < 2 ^ 32 }
        ensures kept { self.new ≡ record self.old { asleep = self.new.asleep } }
        ensures places { length self.new.asleep.items ≡ length self.old.asleep.items }
        ensures asleep { (x : ℕ) → asleep_at self.new x ≡ asleep_at self.old x + listed x (number ∷ []) }
    {
        self.asleep[number as usize] += 1;
    }

    /// The wires of outputs have levels of their own after the unit of a time.
    fn let_all_differ(&mut self, run: &Run, outputs: &[Output], now: u32) -> Result<(), AllocError>
        requires time { now < 2 ^ 32 - 1 }
        requires cursors { HasCursors run.now now [] self.old }
        requires linked { AreLinked self.old.numbers }
        requires within { AreSourcesOf outputs.now self.old }
        ensures kept { OnOk result (self.new ≡ record self.old { sources = self.new.sources; timers = self.new.timers; places = self.new.places }) }
        ensures cursors { OnOk result (HasCursors run.now now [] self.new) }
        ensures complete { OnOk result (IsComplete run.now now self.old → IsComplete run.now now self.new) }
        ensures sources { OnOk result ((w : ℕ) → source_at self.new w ≡ woken outputs.now w (source_at self.old w)) }
    {
        for output in outputs {
            self.let_differ(run, *output, now)?;
        }
        Ok(())
    }

    fn let_differ(&mut self, run: &Run, output: Output, now: u32) -> Result<(), AllocError>
        requires time { now < 2 ^ 32 - 1 }
        requires cursors { HasCursors run.now now [] self.old }
        requires linked { AreLinked self.old.numbers }
        requires within { IsSourceOf self.old output }
        ensures kept { OnOk result (self.new ≡ record self.old { sources = self.new.sources; timers = self.new.timers; places = self.new.places }) }
        ensures cursors { OnOk result (HasCursors run.now now [] self.new) }
        ensures complete { OnOk result (IsComplete run.now now self.old → IsComplete run.now now self.new) }
        ensures sources { OnOk result ((w : ℕ) → source_at self.new w ≡ woken (output ∷ []) w (source_at self.old w)) }
    {
        let Some(wire) = output.wire else {
            return Ok(());
        };
        self.set_until(wire.0, NEVER);
        self.track(run, wire.0, now)?;
        Ok(())
    }

    /// The wires of outputs have levels of the old run their delays after a time.
    fn let_all_follow(&mut self, run: &Run, outputs: &[Output], time: u32) -> Result<(), AllocError>
        requires some { 0 < time }
        requires time { time + 2 ^ 16 < 2 ^ 32 - 1 }
        requires cursors { HasCursors run.now (time - 1) [] self.old }
        requires within { AreSourcesOf outputs.now self.old }
        requires apart { HaveOwnWires outputs.now }
        requires own { HaveOwnLevels outputs.now self.old }
        ensures kept { OnOk result (self.new ≡ record self.old { sources = self.new.sources; timers = self.new.timers; places = self.new.places }) }
        ensures cursors { OnOk result (HasCursors run.now (time - 1) [] self.new) }
        ensures complete { OnOk result (IsComplete run.now (time - 1) self.old → IsComplete run.now (time - 1) self.new) }
        ensures sources { OnOk result ((w : ℕ) → source_at self.new w ≡ slept outputs.now time w (source_at self.old w)) }
    {
        for output in outputs {
            self.let_follow(run, *output, time)?;
        }
        Ok(())
    }

    fn let_follow(&mut self, run: &Run, output: Output, time: u32) -> Result<(), AllocError>
        requires some { 0 < time }
        requires time { time + 2 ^ 16 < 2 ^ 32 - 1 }
        requires cursors { HasCursors run.now (time - 1) [] self.old }
        requires within { IsSourceOf self.old output }
        requires own { HasOwnLevels self.old output }
        ensures kept { OnOk result (self.new ≡ record self.old { sources = self.new.sources; timers = self.new.timers; places = self.new.places }) }
        ensures cursors { OnOk result (HasCursors run.now (time - 1) [] self.new) }
        ensures complete { OnOk result (IsComplete run.now (time - 1) self.old → IsComplete run.now (time - 1) self.new) }
        ensures sources { OnOk result ((w : ℕ) → source_at self.new w ≡ slept (output ∷ []) time w (source_at self.old w)) }
    {
        let Some(wire) = output.wire else {
            return Ok(());
        };
        self.set_until(wire.0, time + output.delay);
        self.list(run, wire.0, time - 1)?;
        Ok(())
    }

    /// A wire has the levels of the old run from a time on.
    #[inline(always)]
    fn set_until(&mut self, wire: u32, until: u32)
        requires within { wire < length self.old.sources.items }
        ensures kept { self.new ≡ record self.old { sources = self.new.sources } }
        ensures places { length self.new.sources.items ≡ length self.old.sources.items }
        ensures sources { (w : ℕ) → source_at self.new w ≡ (if w == wire then from_then until (source_at self.old w) else source_at self.old w) }
    {
        self.sources[wire as usize].until = until;
    }

    /// The simulation has the levels of a wire.
    #[inline(always)]
    fn set_on(&mut self, wire: u32)
        requires within { wire < length self.old.sources.items }
        ensures kept { self.new ≡ record self.old { sources = self.new.sources } }
        ensures places { length self.new.sources.items ≡ length self.old.sources.items }
        ensures sources { (w : ℕ) → source_at self.new w ≡ (if w == wire then turned_on (source_at self.old w) else source_at self.old w) }
    {
        self.sources[wire as usize].is_on = true;
    }
}
