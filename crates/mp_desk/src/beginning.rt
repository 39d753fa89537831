//! How the history of a desk begins.
ghost use Rattle.std.specs.Prelude.{◌≡◌, ◌∷◌, [], All, IfOk, vec_len};
ghost use Rattle.std.specs.Arc.{arc_value};
ghost use Rattle.mp_version.specs.publication.Chronicles.{unsigned};

use crate::desk_refused::DeskCause;
use crate::desk_size::DeskSize;
use mp_version::Version;
use mp_version::publication::{LogWriter, Pass, Publication, begin_history};
use std::alloc::Global;
use std::sync::{Arc, Wait};

/// A history with its first version, which is published, and a place for each designer and each viewer.
#[derive(Drop)]
pub(crate) struct Beginning<R: Wait + Drop> {
    pub writer: LogWriter,
    pub publication: Publication<R>,
    pub designers: Vec<Pass>,
    pub viewers: Vec<Pass>,
}

/// Begins a history with this version, for a desk of this size. `OutOfMemory` if memory runs out, and `NoPlace` if there is memory, but no place for
/// a reader.
pub(crate) fn begin<R: Wait + Drop>(
    rt: R,
    alloc: Global,
    version: &Arc<Version>,
    size: DeskSize,
) -> Result<Beginning<R>, DeskCause>
    ensures writer { IfOk result (λ b. (b.writer.story ≡ arc_value version.now) × (b.writer.authors ≡ unsigned (arc_value version.now))) }
    ensures publication { IfOk result (λ b. b.publication ≡ record { book = b.writer.book; story = arc_value version.now }) }
    ensures designers { IfOk result (λ b. (vec_len b.designers ≡ size.designers) × All (λ p. p ≡ b.publication ∷ []) b.designers.items) }
    ensures viewers { IfOk result (λ b. (vec_len b.viewers ≡ size.viewers) × All (λ p. p ≡ b.publication ∷ []) b.viewers.items) }
{
    let (writer, mut publication) = begin_history(
        rt,
        alloc,
        version,
        size.designers + size.viewers,
    )?;
    let (designers, viewers) = places_of(alloc, &mut publication, size)?;
    Ok(Beginning {
        writer,
        publication,
        designers,
        viewers,
    })
}

/// A place for each designer and a place for each viewer. Memory is taken before the places are.
fn places_of<R: Wait + Drop>(
    alloc: Global,
    publication: &mut Publication<R>,
    size: DeskSize,
) -> Result<(Vec<Pass>, Vec<Pass>), DeskCause>
    ensures same { publication.new ≡ publication.old }
    ensures designers { IfOk result (λ both. (vec_len both.0 ≡ size.designers) × All (λ p. p ≡ publication.old ∷ []) both.0.items) }
    ensures viewers { IfOk result (λ both. (vec_len both.1 ≡ size.viewers) × All (λ p. p ≡ publication.old ∷ []) both.1.items) }
{
    let for_designers = Vec::with_capacity(alloc, size.designers)?;
    let for_viewers = Vec::with_capacity(alloc, size.viewers)?;
    let designers = publication.places(for_designers, size.designers)?;
    let viewers = publication.places(for_viewers, size.viewers)?;
    Ok((designers, viewers))
}
