//! The wires of a bundle.
use crate::ahead::Ahead;

/// The wires of a bundle from a time on.
#[derive(Clone, Copy)]
pub(crate) struct Watch<'a> {
    pub(crate) request: Ahead<'a>,
    pub(crate) acknowledge: Ahead<'a>,
    pub(crate) payload: Ahead<'a>,
}

impl<'a> Watch<'a> {
    ghost use Rattle.std.specs.Prelude.{◌≡◌, ◌+◌, ◌<◌, ◌≤◌};
    ghost use Rattle.mp_report.specs.Clauses.{ℕ, false, Circuit, BundleRecord, changes, AreAhead};

    /// The time of the next change of one of the wires, or an end that comes first.
    pub(crate) fn next(self, end: u32) -> u32
        ensures within { result ≤ end }
        ensures later { (n : Circuit) (b : BundleRecord) (time : ℕ) → AreAhead n b time self.entry → time ≤ end → time ≤ result }
        ensures still { (n : Circuit) (b : BundleRecord) (time : ℕ) → AreAhead n b time self.entry → time ≤ result → result ≤ n.horizon → AreAhead n b result self.entry }
        ensures quiet { (n : Circuit) (b : BundleRecord) (time t : ℕ) → AreAhead n b time self.entry → time ≤ t → t < result → t < n.horizon
            → (changes n b.request t ≡ false) × (changes n b.acknowledge t ≡ false) × (changes n b.payload t ≡ false) }
    {
        let end = self.request.next(end);
        let end = self.acknowledge.next(end);
        self.payload.next(end)
    }

    /// The wires after a time that no change comes before.
    pub(crate) fn since(self, time: u32) -> Self
        ensures { (n : Circuit) (b : BundleRecord) → AreAhead n b time self.entry → time < n.horizon → AreAhead n b (time + 1) result }
    {
        Watch {
            request: self.request.since(time),
            acknowledge: self.acknowledge.since(time),
            payload: self.payload.since(time),
        }
    }
}
