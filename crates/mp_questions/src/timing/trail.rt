//! Reading a wire's events by rising time.
use mp_wave::{Wave, WaveChanges};

/// The time of a wire's last event so far, if any, and its changes to come.
#[derive(Clone, Copy)]
pub(crate) struct Trail<'a> {
    pub(crate) last: Option<u32>,
    pub(crate) changes: WaveChanges<'a>,
}

impl<'a> Trail<'a> {
    ghost use Rattle.std.specs.Prelude.{◌≡◌, ℕ, List};
    ghost use Rattle.mp_wave.specs.WaveChanges.{changes_in};
    ghost use Rattle.mp_questions.specs.timing.Trails.{last_upto, next_after, first_time, IsTrail};

    /// The events of a wave, from time 0 on.
    pub(crate) fn of(wave: &'a Wave) -> Self
        ensures { IsTrail wave.now.changes 0 result }
    {
        Trail {
            last: None,
            changes: wave.changes(),
        }
    }

    /// The trail moved on to a time, which isn't before the one that it has reached.
    pub(crate) fn upto(self, time: u32) -> Self
        ensures trail { (changes : List (ℕ × ℕ)) → IsTrail changes time self.entry → IsTrail changes time result }
        ensures last { result.last ≡ last_upto self.entry.last (changes_in self.entry.changes) time }
        ensures next { first_time (changes_in result.changes) ≡ next_after (changes_in self.entry.changes) time }
    {
        let mut last = self.last;
        let mut changes = self.changes;
        while let Some((change, later)) = changes.split_first() {
            if change.0 > time {
                break;
            }
            last = Some(change.0);
            changes = later;
        }
        Trail { last, changes }
    }

    /// The time of the next event.
    pub(crate) fn next(self) -> Option<u32>
        ensures { result ≡ first_time (changes_in self.entry.changes) }
    {
        match self.changes.first() {
            Some(change) => Some(change.0),
            None => None,
        }
    }
}
