//! The writer of a history.
ghost use Rattle.std.specs.Prelude.{◌≡◌};
ghost use Rattle.std.specs.Arc.{arc_value};

use crate::publication::authors::Authors;
use crate::publication::chronicle::{HistoryEntry, Law, added};
use crate::publication::log_prefix::LogPrefix;
use crate::version::Version;
use logbook::{Seen, Start, Word};
use std::marker::Model;
use std::sync::{Arc, Wait};

/// The word by which a history grows, 1 more than the number of its latest version, and the history up to which it was written. A contract sees
/// which history it is, its story and the authors of its edits.
#[derive(Drop)]
pub struct LogWriter {
    word: Word<HistoryEntry, u64, Law>,
    seen: Seen<HistoryEntry, u64, Law>,
}

impl Model for LogWriter {
    ghost use Rattle.std.specs.Prelude.{◌≡◌, ◌<◌, length};
    ghost use Rattle.mp_version.specs.publication.Chronicles.{Written, writer_of, latest, authors};

    ghost Value = { Written };

    ghost view = { λ w. record { book = w.seen.book; story = latest w.seen.log; authors = authors w.seen.log } };

    ghost invariant = { λ w. (w.word ≡ writer_of w.seen.book) × (0 < length w.seen.log) };
}

impl LogWriter {
    ghost use Rattle.std.specs.Prelude.{◌≡◌, ◌≤◌, length, IfSome, MatchBool};
    ghost use mathlib.Core.List.{IsPrefix};
    ghost use Rattle.mp_version.specs.Extending.{Succeeds};
    ghost use Rattle.mp_version.specs.publication.Chronicles.{unsigned, written_on};

    /// The writer of a new history, which begins with the version. Nobody else holds that history, so there always is one; no contract says so.
    pub(crate) fn begin(version: &Arc<Version>) -> Option<LogWriter>
        ensures story { IfSome result (λ w. w.story ≡ arc_value version.now) }
        ensures authors { IfSome result (λ w. w.authors ≡ unsigned (arc_value version.now)) }
    {
        let (seen, mut first, _second) = Seen::open(Start::alone(), 0, 0);
        let word = Word::tracked(0, &mut first);
        let seen = added(&word, seen, 0, version, 0)?;
        Some(LogWriter { word, seen })
    }

    /// Adds a version by this author to the history. That ends with what this writer wrote, so the first try does it.
    pub fn add<H: Wait>(&mut self, rt: &H, version: &Arc<Version>, author: usize)
        requires follows { Succeeds (arc_value version.now) self.old.story }
        ensures { self.new ≡ written_on self.old (arc_value version.now) author }
    {
        for _ in rt.forever() {
            if self.is_added(version, author) {
                return;
            }
        }
        unreachable!()
    }

    /// Adds a version by this author to the history, and returns whether it could. False if that is longer than it was written by this writer.
    fn is_added(&mut self, version: &Arc<Version>, author: usize) -> bool
        requires follows { Succeeds (arc_value version.now) self.old.story }
        ensures { MatchBool result (self.new ≡ written_on self.old (arc_value version.now) author) (self.new ≡ self.old) }
    {
        let old = version.number() as u64;
        match added(&self.word, self.seen.again(), old, version, author) {
            Some(seen) => {
                self.seen = seen;
                true
            }
            None => false,
        }
    }

    /// The history up to here.
    pub fn prefix(&self) -> LogPrefix
        ensures { result ≡ record { book = self.now.book; story = self.now.story } }
    {
        LogPrefix {
            seen: self.seen.again(),
        }
    }

    /// Its authors up to here.
    pub fn authors(&self) -> Authors
        ensures { result ≡ record { book = self.now.book; authors = self.now.authors } }
    {
        Authors {
            seen: self.seen.again(),
        }
    }

    /// The authors begin with those that were known earlier.
    pub fn begins_with(&self, earlier: &Authors)
        requires { earlier.now.book ≡ self.now.book }
        ensures { length earlier.now.authors ≤ length self.now.authors → IsPrefix earlier.now.authors self.now.authors }
    {
        self.authors().begins_with(earlier);
    }
}
