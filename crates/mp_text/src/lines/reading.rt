//! Divides bytes into lines.
ghost use Rattle.std.specs.Prelude.{◌≡◌, true};
ghost use Rattle.std.specs.Io.KnownBytes.{IsAtEnd};
ghost use Rattle.std.specs.List.{before_first, after_first};
ghost use Rattle.mp_text.specs.lexing.Lines.{is_line_feed};
ghost use Rattle.mp_streams.specs.StreamFaults.{counted};
ghost use Rattle.mp_text.specs.lines.Given.{with_more, has_line_feed};
ghost use Rattle.mp_text.specs.lines.Incoming.{incoming, ReadsLine, StaysIfHeld};

use crate::lexing::first_line;
use crate::lines::line_room::LineRoom;
use crate::lines::source_chunk::SourceChunk;
use mp_streams::{Failed, Source};
use std::sync::Wait;

/// Reads the next line, as `LineReader::read` does.
pub(crate) fn read_on<R: Wait, S: Source>(
    rt: &R,
    source: &mut S,
    chunk: &mut SourceChunk,
    line: &mut LineRoom,
) -> Result<bool, Failed>
    requires { chunk.old.is_last ≡ true → IsAtEnd (S.left source.old) }
    ensures read { ReadsLine result (incoming (S.left source.old) (S.fault_count source.old) chunk.old line.old) (incoming (S.left source.new) (S.fault_count source.new) chunk.new line.new) }
    ensures held_first { StaysIfHeld (incoming (S.left source.old) (S.fault_count source.old) chunk.old line.old) (incoming (S.left source.new) (S.fault_count source.new) chunk.new line.new) }
    ensures end { chunk.new.is_last ≡ true → IsAtEnd (S.left source.new) }
    ensures faults { S.fault_count source.new ≡ counted result (S.fault_count source.old) }
{
    line.clear();
    for _ in rt.forever() {
        if absorb(chunk, line) {
            return Ok(true);
        }
        chunk.fill(source)?;
        if chunk.is_empty() {
            return Ok(!line.is_empty());
        }
    }
    unreachable!()
}

/// Moves the bytes up to the first line feed to the line, or all bytes if there is none, and skips the line feed. Returns whether there was one.
fn absorb(chunk: &mut SourceChunk, line: &mut LineRoom) -> bool
    ensures ends { result ≡ has_line_feed chunk.old.bytes }
    ensures line { line.new ≡ with_more line.old (before_first is_line_feed chunk.old.bytes) }
    ensures rest { chunk.new.bytes ≡ after_first is_line_feed chunk.old.bytes }
    ensures last { chunk.new.is_last ≡ chunk.old.is_last }
{
    let held = chunk.bytes();
    let (part, _) = first_line(held);
    let count = part.len();
    let ends = count < held.len();
    line.put(part);
    chunk.pass(count + 1);
    ends
}
