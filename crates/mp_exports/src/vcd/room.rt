//! The text of a passage, ahead of its place.
ghost use Rattle.std.specs.Prelude.{◌≡◌, ◌++◌};
ghost use Rattle.std.specs.Io.KnownBytes.{Appends};
ghost use Rattle.mp_streams.specs.WriteErrors.{Writes};
ghost use Rattle.mp_exports.specs.vcd.Clauses.{IfSome, OnOk, IsMade, passage_text};

use crate::vcd::limited::Limited;
use crate::vcd::time_chunk::TimeChunk;
use mp_streams::{Out, Sink, WriteError};
use std::alloc::Global;

/// How many bytes a text has at most that is made ahead.
const MOST_BYTES: usize = 16_777_216;

/// The text of a passage, if it was made ahead.
#[derive(Drop)]
pub(crate) struct Room {
    pub(crate) text: Option<Vec<u8>>,
}

impl Room {
    ghost use Rattle.mp_exports.specs.vcd.Clauses.{IsMade};

    /// Makes the text of a passage. It isn't made if it is too long, and if memory is refused.
    pub(crate) fn make(&mut self, alloc: Global, passage: &TimeChunk<'_>)
        ensures { IsMade passage.now self.new }
    {
        let bytes = match self.text.take() {
            Some(bytes) => bytes,
            None => Vec::new(alloc),
        };
        self.text = made(alloc, passage, bytes);
    }
}

/// Writes the text of a passage: the one that a room has, or, if none has it, as the passage writes it.
pub(crate) fn put_text<S: Sink>(
    alloc: Global,
    out: &mut Out<S>,
    passage: &TimeChunk<'_>,
    room: Option<&Room>,
) -> Result<(), WriteError>
    requires { IfSome room (λ room. IsMade passage.now room.now) }
    ensures { Writes result out.old out.new (passage_text passage.now) }
{
    match room {
        Some(Room { text: Some(text) }) => Ok(out.put_bytes(text.as_slice())?),
        _ => passage.put(alloc, out),
    }
}

/// The text of a passage, in the memory of some bytes.
fn made(alloc: Global, passage: &TimeChunk<'_>, bytes: Vec<u8>) -> Option<Vec<u8>>
    ensures { IfSome result (λ text. text.items ≡ passage_text passage.now) }
{
    let mut bytes = bytes;
    bytes.clear();
    let sink = Limited {
        bytes,
        limit: MOST_BYTES,
        faults: 0,
    };
    let Ok(mut out) = Out::new(alloc, sink) else {
        return None;
    };
    match put_whole(alloc, &mut out, passage) {
        Ok(()) => Some(out.into_sink().bytes),
        Err(_) => None,
    }
}

/// Writes the text of a passage, and passes all of it on to the sink.
fn put_whole<S: Sink>(
    alloc: Global,
    out: &mut Out<S>,
    passage: &TimeChunk<'_>,
) -> Result<(), WriteError>
    ensures { OnOk result (Appends out.old.taken out.new.taken (out.old.held ++ passage_text passage.now)) }
{
    passage.put(alloc, out)?;
    Ok(out.flush()?)
}
