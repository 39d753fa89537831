//! A source read line by line.
ghost use Rattle.std.specs.Prelude.{◌≡◌, [], true, false, Some, None, IfOk, MatchResult};
ghost use Rattle.std.specs.Io.KnownBytes.{IsAtEnd};
ghost use Rattle.mp_streams.specs.StreamFaults.{counted};
ghost use Rattle.mp_text.specs.lines.Incoming.{ReadsLine, StaysIfHeld};

use crate::lines::line_room::LineRoom;
use crate::lines::reading::read_on;
use crate::lines::source_chunk::SourceChunk;
use crate::lines::too_long::TooLong;
use mp_streams::{Failed, Source};
use std::alloc::{AllocError, Global};
use std::marker::Model;
use std::sync::Wait;

/// A source that is read line by line. It takes its memory when it is made, and no more. It asks the source for bytes only while it holds no whole
/// line, so that a line can be answered before the next one is written.
#[derive(Drop)]
pub struct LineReader<S: Source> {
    source: S,
    chunk: SourceChunk,
    line: LineRoom,
}

impl<S: Source> Model for LineReader<S> {
    ghost use Rattle.std.specs.Prelude.{◌≡◌, true};
    ghost use Rattle.std.specs.Io.KnownBytes.{IsAtEnd};
    ghost use Rattle.mp_text.specs.lines.Incoming.{Incoming, incoming};

    ghost Value = { Incoming };

    ghost view = { λ reader. incoming (S.left reader.source) (S.fault_count reader.source) reader.chunk reader.line };

    ghost invariant = { λ reader. reader.chunk.is_last ≡ true → IsAtEnd (S.left reader.source) };
}

impl<S: Source> LineReader<S> {
    /// A reader of this source, with nothing read so far and an empty line. `AllocError` comes if memory runs out.
    pub fn new(alloc: Global, source: S) -> Result<LineReader<S>, AllocError>
    where
        S: Drop,
        ensures left { IfOk result (λ reader. reader.left ≡ S.left source) }
        ensures held { IfOk result (λ reader. reader.held ≡ []) }
        ensures ended { IfOk result (λ reader. reader.ended ≡ false) }
        ensures line { IfOk result (λ reader. reader.line ≡ Some []) }
        ensures faults { IfOk result (λ reader. reader.faults ≡ S.fault_count source) }
    {
        let chunk = SourceChunk::new(alloc)?;
        let line = LineRoom::new(alloc)?;
        Ok(LineReader {
            source,
            chunk,
            line,
        })
    }

    /// Reads the next line, and returns whether there is one. A line ends at a line feed, which isn't part of it, and the last one may end without. A
    /// line of more than 65,536 bytes is skipped to its end. `Failed` comes if the source fails; then the line so far is lost, and nothing is held.
    /// The call waits until the source gives a line feed or its end. After its end the source isn't asked again.
    pub fn read<R: Wait>(&mut self, rt: &R) -> Result<bool, Failed>
        ensures read { ReadsLine result self.old self.new }
        ensures held_first { StaysIfHeld self.old self.new }
        ensures end { self.new.ended ≡ true → IsAtEnd self.new.left }
        ensures faults { self.new.faults ≡ counted result self.old.faults }
    {
        read_on(rt, &mut self.source, &mut self.chunk, &mut self.line)
    }

    /// The line that was read last. `TooLong` comes if it has more than 65,536 bytes.
    pub fn line(&self) -> Result<&[u8], TooLong>
        ensures { MatchResult result (λ line. self.now.line ≡ Some line.now) (λ _. self.now.line ≡ None) }
    {
        self.line.bytes()
    }
}
