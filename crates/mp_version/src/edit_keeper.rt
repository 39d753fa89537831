//! What keeps the edits that a desk accepts.
ghost use Rattle.std.specs.Prelude.{◌≡◌, Bool, true, false, OnOk, OnErr};
ghost use Rattle.mp_version.specs.Stories.{Story, one_more};

use mp_netlist::Edit;
use thiserror::Error;

/// An edit can't be kept.
#[derive(Clone, Copy, Debug, PartialEq, Eq, Error)]
#[error("the edit can't be kept")]
pub struct NotKept;

/// Keeps the edits that a desk accepts, each before anybody is shown it.
pub trait EditKeeper: Drop {
    // It has the edits of this story, those from before it began left out. It has no others, unless it is lost.
    ghost keeps: { Self → Story → Type 0 };

    // Whether it can't keep edits any more.
    ghost is_lost: { Self → Bool };

    /// Whether it can't keep edits any more.
    fn is_lost(&self) -> bool
        ensures { result ≡ is_lost self.now };

    /// Keeps an edit behind those that it has. The error comes if that fails: then it has the edits that it had, and is lost.
    fn keep(&mut self, edit: &Edit) -> Result<(), NotKept>
        requires whole { is_lost self.old ≡ false }
        ensures kept { (story : Story) → keeps self.old story → OnOk result (keeps self.new (one_more story edit.now)) }
        ensures same { (story : Story) → keeps self.old story → OnErr result (keeps self.new story) }
        ensures whole { OnOk result (is_lost self.new ≡ false) }
        ensures lost { OnErr result (is_lost self.new ≡ true) };
}
