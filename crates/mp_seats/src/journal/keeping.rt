//! A session that keeps a journal.
ghost use Rattle.std.specs.Prelude.{◌≡◌, false, length, IfOk};

use crate::journal::journal::Journal;
use crate::journal::journal_notice::JournalNotice;
use mp_desk::KeptSession;
use mp_streams::Sink;
use mp_version::EditSession;
use std::alloc::{AllocError, Global};

/// A session whose further edits are appended to this sink. The error comes if memory runs out.
pub fn journaled<S: EditSession, T: Sink + Drop, N: JournalNotice>(
    alloc: Global,
    session: S,
    sink: T,
    notice: N,
) -> Result<KeptSession<S, Journal<T, N>>, AllocError>
    ensures session { IfOk result (λ kept. kept.session ≡ session) }
    ensures journal { IfOk result (λ kept. kept.keeper ≡ record { before = T.taken sink; taken = T.taken sink; is_lost = false; opening = length (S.story session).edits }) }
{
    // dropped by a call: otherwise the drop of each part would stand here
    let Ok(journal) = Journal::new(alloc, sink, notice, session.version().number()) else {
        drop(session);
        return Err(AllocError);
    };
    Ok(KeptSession::new(session, journal))
}
