//! What a desk is made of.
ghost use Rattle.std.specs.Prelude.{◌≡◌};

use crate::beginning::{Beginning, begin};
use crate::desk_refused::DeskRefused;
use crate::desk_size::DeskSize;
use crate::kept_session::KeptSession;
use mp_version::publication::{LogWriter, Pass, Publication};
use mp_version::{EditKeeper, EditSession};
use std::alloc::Global;
use std::marker::Model;
use std::sync::Wait;
use std::sync::ledger::Blank;

/// What a desk is made of, before it has a name: its session and what keeps its edits, its publication, and a place for each designer and each viewer.
#[derive(Drop)]
pub struct DeskParts<S: EditSession, K: EditKeeper, R: Wait + Drop> {
    pub(crate) alloc: Global,
    pub(crate) kept: KeptSession<S, K>,
    pub(crate) writer: LogWriter,
    pub(crate) publication: Publication<R>,
    pub(crate) designers: Vec<Pass>,
    pub(crate) viewers: Vec<Pass>,
    pub(crate) blank: Blank,
}

impl<S: EditSession, K: EditKeeper, R: Wait + Drop> Model for DeskParts<S, K, R> {
    ghost use Rattle.std.specs.Prelude.{◌≡◌, ◌+◌, ◌∷◌, [], All, vec_len};
    ghost use Rattle.mp_version.specs.publication.Chronicles.{unsigned};
    ghost use Rattle.mp_desk.specs.Holders.{Parts};

    ghost Value = { Parts S };

    ghost view = { λ p. record { session = p.kept.session; designers = vec_len p.designers; viewers = vec_len p.viewers; book = p.writer.book; ledger = p.blank.name } };

    ghost invariant = { λ p. (p.publication ≡ record { book = p.writer.book; story = S.story p.kept.session }) × (p.writer.story ≡ S.story p.kept.session) × (p.writer.authors ≡ unsigned (S.story p.kept.session)) × (p.blank.parts ≡ vec_len p.designers + 1) × All (λ q. q ≡ p.publication ∷ []) p.designers.items × All (λ q. q ≡ p.publication ∷ []) p.viewers.items };
}

impl<S: EditSession, K: EditKeeper, R: Wait + Drop> DeskParts<S, K, R> {
    ghost use Rattle.std.specs.Prelude.{IfOk, IfErr};

    /// The parts of a desk of this size. `OutOfMemory` if memory runs out, and `NoPlace` if there is memory, but the publication has no place for a
    /// reader: then the session is handed back.
    pub fn new(
        rt: R,
        alloc: Global,
        kept: KeptSession<S, K>,
        size: DeskSize,
    ) -> Result<DeskParts<S, K, R>, DeskRefused<S, K>>
        ensures session { IfOk result (λ p. p.session ≡ kept.session) }
        ensures counts { IfOk result (λ p. (p.designers ≡ size.designers) × (p.viewers ≡ size.viewers)) }
        ensures refused { IfErr result (λ r. r.kept ≡ kept) }
    {
        let Beginning {
            writer,
            publication,
            designers,
            viewers,
        } = match begin(rt, alloc, kept.session().version(), size) {
            Ok(beginning) => beginning,
            Err(cause) => return Err(DeskRefused::new(cause, kept)),
        };
        Ok(DeskParts {
            alloc,
            kept,
            writer,
            publication,
            designers,
            viewers,
            blank: Blank::new(size.designers as u64 + 1),
        })
    }
}
