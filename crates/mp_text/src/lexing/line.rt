//! The lines of a text.
ghost use Rattle.std.specs.Prelude.{◌≡◌, ◌∷◌, ◌<◌, ◌≤◌, true, false, take, slice_index_or};
ghost use Rattle.mp_text.specs.lexing.Clauses.{length, OnOk, IsAscii, IsTrue, before_first, after_first, list_all, OutOfMemory, is_line_feed, lines_of, is_allowed, is_word_byte, line_words, Gives, texts, AreAscii};

use crate::lexing::line_error::LineError;
use crate::lexing::word::{is_gap, place_of};

/// The first line of the text, and the text after its line feed.
#[tactic(auto, using(crate::proofs::lemmas::lexing::LineLemmas::line_steps))]
pub fn first_line(text: &[u8]) -> (&[u8], &[u8])
    ensures line { result.0.now ≡ before_first is_line_feed text.now }
    ensures rest { result.1.now ≡ after_first is_line_feed text.now }
    ensures shorter { 0 < length text.now → length result.1.now < length text.now }
    ensures lines { 0 < length text.now → lines_of text.now ≡ result.0.now ∷ lines_of result.1.now }
{
    match place_of(b'\n', text) {
        Some(at) => (&text[..at], &text[at + 1..]),
        None => (text, &[]),
    }
}

/// Reads the words of a line before its comment, in order, in place of the words in the list.
///
/// `NotAscii` comes if a byte of the line, even in its comment, isn't allowed: a tab, a carriage return and 32 to 126 are. `OutOfMemory` comes if
/// memory runs out.
#[tactic(auto, using(crate::proofs::lemmas::lexing::LineWordLemmas::line_word_steps))]
pub fn read_line_words<'a>(words: &mut Vec<&'a [u8]>, line: &'a [u8]) -> Result<(), LineError>
    ensures words { Gives OutOfMemory (λ _. texts words.new.items) result (line_words line.now) }
    ensures ascii { OnOk result (AreAscii words.new.items) }
{
    words.clear();
    let mut rest = line;
    while !rest.is_empty() {
        let end = word_len(rest);
        if end > 0 {
            words.push(&rest[..end])?;
            rest = &rest[end..];
        } else if is_gap(rest[0]) {
            rest = &rest[1..];
        } else if is_plain(rest) {
            // a comment
            return Ok(());
        } else {
            return Err(LineError::NotAscii);
        }
    }
    Ok(())
}

/// The number of bytes before the first one that isn't of a word.
fn word_len(bytes: &[u8]) -> usize
    ensures within { result ≤ length bytes.now }
    ensures word { list_all is_word_byte (take result bytes.now) ≡ true }
    ensures end { result < length bytes.now → is_word_byte (slice_index_or bytes.now result 0) ≡ false }
{
    let mut at = 0;
    while at < bytes.len() && is_word_byte(bytes[at]) {
        at += 1;
    }
    at
}

/// Whether each byte is allowed in a line, comments included.
pub fn is_plain(line: &[u8]) -> bool
    ensures value { result ≡ list_all is_allowed line.now }
    ensures ascii { IsTrue result → IsAscii line.now }
{
    let mut plain = true;
    for byte in line {
        // no early end, so that many bytes are looked at in one step
        plain &= is_allowed(*byte);
    }
    plain
}

/// Whether a byte may be part of a word: it is printed, and neither a space nor `#`.
fn is_word_byte(byte: u8) -> bool
    ensures { result ≡ is_word_byte byte }
{
    matches!(byte, 33..=126) && byte != b'#'
}

fn is_allowed(byte: u8) -> bool
    ensures { result ≡ is_allowed byte }
{
    matches!(byte, b'\t' | b'\r' | 32..=126)
}
