//! Who made a history.
ghost use Rattle.std.specs.Prelude.{◌≡◌};

use crate::publication::chronicle::{HistoryEntry, Law};
use logbook::Seen;
use std::marker::Model;

/// The authors of the edits of a story that the history has reached. It has no bytes.
#[derive(Drop)]
pub struct Authors {
    pub(crate) seen: Seen<HistoryEntry, u64, Law>,
}

impl Model for Authors {
    ghost use Rattle.std.specs.Prelude.{◌<◌, length};
    ghost use Rattle.mp_version.specs.publication.Chronicles.{Signed, authors};

    ghost Value = { Signed };

    ghost view = { λ a. record { book = a.seen.book; authors = authors a.seen.log } };

    ghost invariant = { λ a. 0 < length a.seen.log };
}

impl Authors {
    ghost use Rattle.std.specs.Prelude.{◌≡◌, ◌≤◌, length};
    ghost use mathlib.Core.List.{IsPrefix};

    /// Another handle of the same authors.
    pub(crate) fn again(&self) -> Authors
        ensures { result ≡ self.now }
    {
        Authors {
            seen: self.seen.again(),
        }
    }

    /// The authors begin with those that were known earlier.
    pub fn begins_with(&self, earlier: &Authors)
        requires { earlier.now.book ≡ self.now.book }
        ensures { length earlier.now.authors ≤ length self.now.authors → IsPrefix earlier.now.authors self.now.authors }
    {
        let mut both = self.seen.again();
        both.learn(&earlier.seen);
    }
}
