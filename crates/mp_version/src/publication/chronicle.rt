//! The one history of a desk: a log of versions and their authors, which exists only in proofs. At run time threads share one word of it.
ghost use Rattle.std.specs.Prelude.{◌≡◌, ◌∷◌, ◌++◌, [], length, IfSome};
ghost use Rattle.std.specs.Arc.{arc_value};
ghost use Rattle.mp_version.specs.publication.Chronicles.{entry, mark, writer_of, MayAdd};

use crate::version::Version;
use logbook::{Gain, Offer, Plain, Play, Rule, Seen, Word};
use std::sync::Arc;

/// An entry of the history: a version, and the number of the designer who made its last edit. It exists only in proofs.
pub(crate) struct HistoryEntry {
    version: Version,
    author: usize,
}

/// The rule of the history.
pub(crate) struct Law;

impl Rule<HistoryEntry, u64> for Law {
    ghost use Rattle.std.specs.Prelude.{[]};
    ghost use base.Fml.{ftrue};
    ghost use Rattle.mp_version.specs.publication.Chronicles.{IsKept};

    ghost holds = { λ cells log. IsKept cells log };

    ghost first = { [] };

    ghost hinted = { λ n log. Unit {0} };

    ghost shows = { λ log. [] };

    ghost keeps = { λ names log. ftrue };

    ghost moves = { λ ask before after answer. Unit {0} };
}

/// Callers trade nothing.
pub(crate) struct Nothing;

impl Gain<HistoryEntry, u64> for Nothing {
    ghost use base.Fml.{ftrue};

    ghost after = { λ names about answer. ftrue };
}

/// A step that adds an entry.
pub(crate) struct Add;

impl Play<HistoryEntry, u64> for Add {
    ghost use Rattle.mp_version.specs.publication.Chronicles.{Adds};

    ghost then = { Adds };
}

/// What a step adds: a version, and the number of its author.
#[derive(Drop)]
struct Signing<'a> {
    version: &'a Arc<Version>,
    author: usize,
}

impl<'a> Plain<Signing<'a>, HistoryEntry, u64> for Add {
    ghost use Rattle.std.specs.Prelude.{None};
    ghost use Rattle.std.specs.Arc.{arc_value};
    ghost use Rattle.mp_version.specs.publication.Chronicles.{entry};

    ghost ask = { λ signing. entry (arc_value signing.version.now) signing.author };

    ghost state = { λ signing. None };
}

/// Adds a version with its author if the word is the one expected. It gives the history up to there.
pub(crate) fn added(
    word: &Word<HistoryEntry, u64, Law>,
    seen: Seen<HistoryEntry, u64, Law>,
    old: u64,
    version: &Arc<Version>,
    author: usize,
) -> Option<Seen<HistoryEntry, u64, Law>>
    requires word { word.now ≡ writer_of seen.book }
    requires old { old ≡ mark seen.log }
    requires follows { MayAdd seen.log (arc_value version.now) }
    ensures book { IfSome result (λ s. s.book ≡ seen.book) }
    ensures log { IfSome result (λ s. s.log ≡ seen.log ++ entry (arc_value version.now) author ∷ []) }
{
    let mut seen = seen;
    let signing = Signing { version, author };
    let mut offer: Offer<HistoryEntry, u64, Law, Nothing> = seen.plain::<Nothing, Signing, Add>(
        &signing,
    );
    let mut pen = seen.no_pen();
    let next = version.number() as u64 + 1;
    let found = word.compare_exchange::<Add, Nothing>(old, next, &mut seen, &mut offer, &mut pen);
    if found == old { Some(seen) } else { None }
}
