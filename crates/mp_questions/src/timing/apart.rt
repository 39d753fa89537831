//! Since when two inputs differ.
ghost use Rattle.std.specs.Prelude.{◌≡◌, ℕ, ◌<◌, ◌≤◌, ◌^◌};
ghost use Rattle.mp_questions.specs.timing.Events.{since};
ghost use Rattle.mp_questions.specs.timing.Hearing.{HearsPort};
ghost use Rattle.mp_questions.specs.timing.Waits.{apart};

use crate::timing::delayed_input::{DelayedInput, since};

/// The time of the last event up to a time that exactly one of two inputs of width 1 had, or 0 if there was none: since then the two have differed,
/// or have agreed, all the time. It looks back over the times at which both had an event.
pub(crate) fn apart_since(
    one: Option<DelayedInput<'_>>,
    other: Option<DelayedInput<'_>>,
    time: u32,
) -> u32
    requires { time < 2 ^ 31 }
    ensures { (f g : ℕ → ℕ) (end : ℕ) → HearsPort f end one.entry → HearsPort g end other.entry → time < end
        → ((t : ℕ) → f t < 2) → ((t : ℕ) → g t < 2) → result ≡ since (apart f g) time }
{
    let mut upto = time;
    let mut ours = since(one, upto);
    let mut theirs = since(other, upto);
    while ours == theirs && ours > 0 {
        upto = ours - 1;
        ours = since(one, upto);
        theirs = since(other, upto);
    }
    ours.max(theirs)
}
