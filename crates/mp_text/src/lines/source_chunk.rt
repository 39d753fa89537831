//! A chunk of bytes from a source.
ghost use Rattle.std.specs.Prelude.{◌≡◌, [], true, false, drop, length, IfOk, OnOk, OnErr, ◌==◌};
ghost use Rattle.std.specs.Io.KnownBytes.{Consumes, Keeps, IsAtEnd};
ghost use Rattle.mp_streams.specs.StreamFaults.{counted};

use mp_streams::{Failed, Source};
use std::alloc::{AllocError, Global};
use std::marker::Model;

/// The size of a chunk: large enough that a read costs little in comparison with what it gives.
const CHUNK_BYTES: usize = 65_536;

/// A chunk of bytes from a source without those that were already taken from its front, and whether the source has ended.
#[derive(Drop)]
pub(crate) struct SourceChunk {
    room: Vec<u8>,
    from: usize,
    end: usize,
    is_last: bool,
}

impl Model for SourceChunk {
    ghost use Rattle.std.specs.Prelude.{ℕ, ◌<◌, ◌≤◌, length, take, drop};
    ghost use Rattle.mp_text.specs.lines.Chunks.{SourceChunk as Bytes};

    ghost Value = { Bytes };

    ghost view = { λ chunk. record { bytes = drop chunk.from (take chunk.end chunk.room.items); is_last = chunk.is_last } };

    ghost invariant = { λ chunk. (chunk.from ≤ chunk.end) × (chunk.end ≤ length chunk.room.items) × (0 < length chunk.room.items) };
}

impl SourceChunk {
    /// An empty chunk, with room for a full one.
    pub(crate) fn new(alloc: Global) -> Result<SourceChunk, AllocError>
        ensures { IfOk result (λ chunk. chunk ≡ record { bytes = []; is_last = false }) }
    {
        let room = vec![in alloc; 0; CHUNK_BYTES]?;
        Ok(SourceChunk {
            room,
            from: 0,
            end: 0,
            is_last: false,
        })
    }

    /// The bytes that are left.
    pub(crate) fn bytes(&self) -> &[u8]
        ensures { result.now ≡ self.now.bytes }
    {
        &self.room[self.from..self.end]
    }

    /// Whether no bytes are left.
    pub(crate) fn is_empty(&self) -> bool
        ensures { result ≡ (length self.now.bytes == 0) }
    {
        self.bytes().is_empty()
    }

    /// Skips `count` bytes, or all if there are fewer.
    pub(crate) fn pass(&mut self, count: usize)
        ensures bytes { self.new.bytes ≡ drop count self.old.bytes }
        ensures same { self.new.is_last ≡ self.old.is_last }
    {
        self.from += count.min(self.end - self.from);
    }

    /// Takes the next bytes of the source: none only at its end, after which it isn't asked again. `Failed` comes if the source fails; then there are
    /// none.
    pub(crate) fn fill<S: Source>(&mut self, source: &mut S) -> Result<(), Failed>
        requires { self.old.is_last ≡ true → IsAtEnd (S.left source.old) }
        ensures taken { OnOk result (Consumes (S.left source.old) (S.left source.new) self.new.bytes) }
        ensures last { OnOk result (self.new.is_last ≡ (length self.new.bytes == 0)) }
        ensures end { self.new.is_last ≡ true → IsAtEnd (S.left source.new) }
        ensures none { self.old.is_last ≡ true → OnOk result (self.new.bytes ≡ []) }
        ensures failed { OnErr result (Keeps (S.left source.old) (S.left source.new)) }
        ensures empty { OnErr result (self.new.bytes ≡ []) }
        ensures unended { OnErr result (self.new.is_last ≡ self.old.is_last) }
        ensures faults { S.fault_count source.new ≡ counted result (S.fault_count source.old) }
    {
        self.from = 0;
        self.end = 0;
        if self.is_last {
            return Ok(());
        }
        self.end = source.take(self.room.as_mut_slice())?;
        self.is_last = self.end == 0;
        Ok(())
    }
}
