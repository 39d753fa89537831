//! How far a history has come.
ghost use Rattle.std.specs.Prelude.{◌≡◌};

use crate::publication::chronicle::{HistoryEntry, Law};
use logbook::Seen;
use std::marker::Model;

/// A story that the history has reached. It has no bytes.
#[derive(Drop)]
pub struct LogPrefix {
    pub(crate) seen: Seen<HistoryEntry, u64, Law>,
}

impl Model for LogPrefix {
    ghost use Rattle.std.specs.Prelude.{◌<◌, length};
    ghost use Rattle.mp_version.specs.publication.Chronicles.{Shown, latest};

    ghost Value = { Shown };

    ghost view = { λ f. record { book = f.seen.book; story = latest f.seen.log } };

    ghost invariant = { λ f. 0 < length f.seen.log };
}

impl LogPrefix {
    ghost use Rattle.std.specs.Prelude.{◌≤◌, length};
    ghost use Rattle.mp_version.specs.Extending.{Extends};

    /// Another handle of the same story.
    pub fn again(&self) -> LogPrefix
        ensures { result ≡ self.now }
    {
        LogPrefix {
            seen: self.seen.again(),
        }
    }

    /// Of two stories of one history the longer extends the shorter.
    pub fn agrees(&self, other: &LogPrefix)
        requires { other.now.book ≡ self.now.book }
        ensures { length other.now.story.edits ≤ length self.now.story.edits → Extends self.now.story other.now.story }
    {
        let mut both = self.seen.again();
        both.learn(&other.seen);
    }
}
