//! How a history begins, and is published.
ghost use Rattle.std.specs.Prelude.{◌≡◌, ◌<◌, ◌^◌, IfOk};
ghost use Rattle.std.specs.Arc.{arc_value};
ghost use Rattle.mp_version.specs.publication.Chronicles.{unsigned};

use crate::publication::edit_authors::EditAuthors;
use crate::publication::log_writer::LogWriter;
use crate::publication::publication::Publication;
use crate::publication::publishing::Published;
use crate::publication::signatures::Signatures;
use crate::version::Version;
use std::alloc::{AllocError, Global};
use std::sync::{Arc, Wait};

/// The writer of a history that begins with this version, whose edits have no author, and the publication of that version, with room for this number of
/// readers.
pub fn begin_history<R: Wait + Drop>(
    rt: R,
    alloc: Global,
    version: &Arc<Version>,
    readers: usize,
) -> Result<(LogWriter, Publication<R>), AllocError>
    requires room { (0 < readers) × (readers < 2 ^ 32) }
    ensures writer { IfOk result (λ both. (both.0.story ≡ arc_value version.now) × (both.0.authors ≡ unsigned (arc_value version.now))) }
    ensures publication { IfOk result (λ both. both.1 ≡ record { book = both.0.book; story = arc_value version.now }) }
{
    // A history that nobody else holds can be begun, so lack of memory is the only error.
    let Some(writer) = LogWriter::begin(version) else {
        return Err(AllocError);
    };
    let first = first_published(alloc, version, &writer)?;
    let publication = Publication::new(rt, alloc, first, readers)?;
    Ok((writer, publication))
}

/// What is published first: the version with which the history begins, whose edits have no author.
fn first_published(
    alloc: Global,
    version: &Arc<Version>,
    writer: &LogWriter,
) -> Result<Published, AllocError>
    requires story { writer.now.story ≡ arc_value version.now }
    requires authors { writer.now.authors ≡ unsigned (arc_value version.now) }
    ensures { IfOk result (λ p. p ≡ record { book = writer.now.book; story = arc_value version.now }) }
{
    let list = EditAuthors::unsigned(alloc, version.number())?;
    let signatures = Signatures::of(list, writer);
    let version = Arc::try_clone(version)?;
    Ok(Published::new(version, writer.prefix(), signatures))
}
