//! Whether the rest of a re-evaluation is that of the old run.
ghost use Rattle.std.specs.Prelude.{◌≡◌, ◌-◌, ◌^◌, [], drop, IsTrue};
ghost use Rattle.mp_wave.specs.Waveform.{between};
ghost use Rattle.mp_netlist.specs.Circuit.{stimulus_at};
ghost use Rattle.mp_active.specs.compare.Comparing.{old_wave};
ghost use Rattle.mp_redo.specs.rerun.Settling.{AreUpTo, IsSetUpTo};

use crate::rerun::rerun::Rerun;
use mp_active::Change;
use mp_kernel::NEVER;
use mp_netlist::{Netlist, WireId, checkpoint_units};
use mp_partition::Run;
use mp_simulation::StimulusChange;

impl Rerun {
    ghost use Rattle.std.specs.Prelude.{◌≡◌, ◌⊎◌, ℕ, ◌-◌, ◌<◌, ◌^◌, [], false, length, IsTrue};
    ghost use Rattle.mp_simulation.specs.run.Stimuli.{left_of};
    ghost use Rattle.mp_active.specs.compare.Comparing.{IsShaped, is_tracked};
    ghost use Rattle.mp_redo.specs.rerun.Settling.{IsOver, IsSettled};
    ghost use Rattle.mp_redo.specs.rerun.Windows.{IsAtWindow};

    /// Whether the rest is that of the old run from a time on, at which a window begins: no module is active, none becomes active later, and no
    /// change is to come that the old run doesn't have. This looks at all numbers, so it is asked only at checkpoints.
    pub(crate) fn is_settled(&self, change: &Change<'_>, time: u32) -> bool
        requires some { 0 < time }
        requires below { time < 2 ^ 32 - 1 }
        requires before { (c : ℕ) × IsAtWindow change.now.old.now change.now.new.now change.now.run.now c (time - 1) self.now }
        ensures { IsTrue result → IsSettled change.now.new.now change.now.run.now time self.now }
    {
        if self.is_left_alone() {
            return time.is_multiple_of(checkpoint_units(change.new.horizon()))
                && self.are_numbers_settled(change, time);
        }
        false
    }

    /// Whether nobody is live, and no change is to come that no active module makes.
    fn is_left_alone(&self) -> bool
        ensures nobody { IsTrue result → self.now.recorder.live.items ≡ [] }
        ensures stimuli { IsTrue result → left_of self.now.stimuli ≡ [] }
        ensures pending_outputs { IsTrue result → left_of self.now.pending_outputs ≡ [] }
    {
        self.recorder.live().is_empty()
            && is_past(self.stimuli.list.as_slice(), self.stimuli.place)
            && is_past(
                self.pending_outputs.list.as_slice(),
                self.pending_outputs.place,
            )
    }

    /// Whether each number that modules read that sleep has the levels of the old run from a time on.
    fn are_numbers_settled(&self, change: &Change<'_>, time: u32) -> bool
        requires shape { IsShaped self.now.comparison }
        requires some { 0 < time }
        requires time { time < 2 ^ 32 - 1 }
        ensures { IsTrue result → (x : ℕ) → x < length self.now.comparison.numbers.wires.items →
            (is_tracked self.now.comparison x time ≡ false) ⊎ IsOver change.now.new.now change.now.run.now self.now.comparison x time }
    {
        for number in 0..self.comparison.numbers.wires.len() {
            if self.tracks(number, time) && !self.is_over(change, number, time) {
                return false;
            }
        }
        true
    }

    /// Whether a number is tracked at a time.
    fn tracks(&self, number: usize, time: u32) -> bool
        requires shape { IsShaped self.now.comparison }
        requires within { number < length self.now.comparison.numbers.wires.items }
        requires time { time < 2 ^ 32 - 1 }
        ensures { result ≡ is_tracked self.now.comparison number time }
    {
        let wire = self.comparison.numbers.wires[number];
        let delay = self.comparison.numbers.delays[number];
        self.comparison.asleep[number] > 0
            && self.comparison.sources[wire as usize].may_differ(delay, time)
    }

    /// Whether a number whose wire no port drives changes in neither run at a time or later.
    fn is_over(&self, change: &Change<'_>, number: usize, time: u32) -> bool
        requires shape { IsShaped self.now.comparison }
        requires within { number < length self.now.comparison.numbers.wires.items }
        requires some { 0 < time }
        ensures { IsTrue result → IsOver change.now.new.now change.now.run.now self.now.comparison number time }
    {
        let wire = self.comparison.numbers.wires[number];
        let delay = self.comparison.numbers.delays[number];
        if self.comparison.sources[wire as usize].until != NEVER || delay >= time {
            return false;
        }
        let last = time - 1 - delay;
        is_set_up_to(change.new, WireId(wire), last) && rests_after(change.run, WireId(wire), last)
    }
}

/// Whether a place is after all changes.
fn is_past(changes: &[StimulusChange], place: usize) -> bool
    ensures { IsTrue result → drop place changes.now ≡ [] }
{
    place >= changes.len()
}

/// Whether the stimulus of a wire, if there is one, changes it only up to a time.
fn is_set_up_to(new: &Netlist, wire: WireId, last: u32) -> bool
    ensures { IsTrue result → IsSetUpTo last (stimulus_at new.now wire.0) }
{
    let Some(found) = new.wire(wire) else {
        return true;
    };
    match &found.stimulus {
        Some(stimulus) => are_up_to(stimulus.as_slice(), last),
        None => true,
    }
}

/// Whether all these changes come up to a time.
fn are_up_to(pairs: &[(u32, u64)], last: u32) -> bool
    ensures { IsTrue result → AreUpTo last pairs.now }
{
    for pair in pairs {
        if pair.0 > last {
            return false;
        }
    }
    true
}

/// Whether a wire has no change after a time in a run.
fn rests_after(run: &Run, wire: WireId, last: u32) -> bool
    ensures { IsTrue result → between last (2 ^ 32 - 1) (old_wave run.now wire.0).changes ≡ [] }
{
    match run.wave(wire) {
        Some(wave) => wave.changes_between(last, u32::MAX).len() == 0,
        None => true,
    }
}
