//! Reading a wire's changes by rising time.
use mp_wave::{Wave, WaveChanges};

/// The level of a wire one unit before a time, and its changes from then on.
#[derive(Clone, Copy)]
pub(crate) struct Ahead<'a> {
    pub(crate) level: u64,
    pub(crate) changes: WaveChanges<'a>,
}

impl<'a> Ahead<'a> {
    ghost use Rattle.std.specs.Prelude.{◌≡◌, ◌+◌, ◌-◌, ◌<◌, ◌≤◌};
    ghost use Rattle.mp_report.specs.Clauses.{ℕ, false, true, wave_upto, has_event, IsAhead};

    /// A wave from time 1 on.
    pub(crate) fn of(wave: &'a Wave) -> Self
        ensures { (f : ℕ → ℕ) (end : ℕ) → 0 < end → wave.now ≡ wave_upto f (end - 1) → IsAhead f end 1 result }
    {
        Ahead {
            level: wave.initial(),
            changes: wave.changes(),
        }
    }

    /// Whether the level changes at a time that no change comes before.
    #[tactic(auto, using(crate::proofs::AheadLemmas::none_at_all, crate::proofs::AheadLemmas::no_first))]
    pub(crate) fn changes_at(self, time: u32) -> bool
        ensures { (f : ℕ → ℕ) (end : ℕ) → IsAhead f end time self.entry → time < end → result ≡ has_event f time }
    {
        match self.changes.first() {
            Some(change) => change.0 == time,
            None => false,
        }
    }

    /// The time of the next change, or an end that comes first.
    #[tactic(auto, using(crate::proofs::AheadLemmas::ahead_next_steps))]
    pub(crate) fn next(self, end: u32) -> u32
        ensures within { result ≤ end }
        ensures later { (f : ℕ → ℕ) (most time : ℕ) → IsAhead f most time self.entry → time ≤ end → time ≤ result }
        ensures still { (f : ℕ → ℕ) (most time t : ℕ) → IsAhead f most time self.entry → time ≤ t → t ≤ result → t ≤ most → IsAhead f most t self.entry }
        ensures quiet { (f : ℕ → ℕ) (most time t : ℕ) → IsAhead f most time self.entry → time ≤ t → t < result → t < most → has_event f t ≡ false }
        ensures event { (f : ℕ → ℕ) (most time : ℕ) → IsAhead f most time self.entry → result < end → has_event f result ≡ true }
    {
        match self.changes.first() {
            Some(change) => end.min(change.0),
            None => end,
        }
    }

    /// The wire after a time that no change comes before.
    pub(crate) fn since(self, time: u32) -> Self
        ensures { (f : ℕ → ℕ) (end : ℕ) → IsAhead f end time self.entry → time < end → IsAhead f end (time + 1) result }
    {
        match self.changes.split_first() {
            Some((change, later)) if change.0 == time => Ahead {
                level: change.1,
                changes: later,
            },
            _ => self,
        }
    }
}
