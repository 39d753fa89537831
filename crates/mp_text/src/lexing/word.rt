//! The words of a line.
#![tactic(auto, unfolding(crate::specs::lexing::Words::words_of))]

ghost use Rattle.std.specs.Prelude.{◌≡◌, ◌<◌, ◌==◌};
ghost use Rattle.mp_text.specs.lexing.Clauses.{length, position, IfOk, OnOk, IfSome, IsAscii, slice_get, option_copied, words_of, texts, is_gap, statement_part, AreAscii};

use memchr::memchr;
use mp_records::Name;
use std::alloc::{AllocError, Global};

/// The words before a comment.
pub fn words<'a>(alloc: Global, line: &'a [u8]) -> Result<Vec<&'a [u8]>, AllocError>
    ensures words { IfOk result (λ words. texts words.items ≡ words_of line.now) }
    ensures ascii { IsAscii line.now → IfOk result (λ words. AreAscii words.items) }
{
    let mut words = Vec::new(alloc);
    read_words(&mut words, line)?;
    Ok(words)
}

/// Reads the words before a comment, in place of the words in the list.
pub fn read_words<'a>(words: &mut Vec<&'a [u8]>, line: &'a [u8]) -> Result<(), AllocError>
    ensures words { OnOk result (texts words.new.items ≡ words_of line.now) }
    ensures ascii { IsAscii line.now → OnOk result (AreAscii words.new.items) }
{
    words.clear();
    words.extend(
        before_comment(line)
            .split(|byte| is_gap(*byte))
            .filter(|part| !part.is_empty()),
    )
}

/// The first word before a comment, if there is one. It takes no memory.
pub fn first_word(line: &[u8]) -> Option<&[u8]>
    ensures { option_copied result ≡ slice_get (words_of line.now) 0 }
{
    word_at(line, 0)
}

/// The word at a place, if there is one. It takes no memory.
pub fn word_at(line: &[u8], place: usize) -> Option<&[u8]>
    ensures { option_copied result ≡ slice_get (words_of line.now) place }
{
    before_comment(line)
        .split(|byte| is_gap(*byte))
        .filter(|part| !part.is_empty())
        .nth(place)
}

/// The number of words before a comment. It takes no memory.
pub fn word_count(line: &[u8]) -> usize
    ensures { result ≡ length (words_of line.now) }
{
    before_comment(line)
        .split(|byte| is_gap(*byte))
        .filter(|part| !part.is_empty())
        .count()
}

/// Whether a byte separates words.
pub fn is_gap(byte: u8) -> bool
    ensures { result ≡ is_gap byte }
{
    byte == b' ' || byte == b'\t' || byte == b'\r'
}

fn before_comment(line: &[u8]) -> &[u8]
    ensures { result.now ≡ statement_part line.now }
{
    match place_of(b'#', line) {
        Some(at) => &line[..at],
        None => line,
    }
}

/// The index of the first such byte.
#[tactic(auto, using(crate::proofs::lemmas::lexing::WordLemmas::first_place))]
pub fn place_of(byte: u8, bytes: &[u8]) -> Option<usize>
    ensures place { result ≡ position (λ b. b == byte) bytes.now }
    ensures within { IfSome result (λ at. at < length bytes.now) }
{
    memchr(byte, bytes)
}

/// A word of ASCII bytes as a name. `AllocError` comes if memory runs out.
#[tactic(auto, using(crate::proofs::lemmas::lexing::WordLemmas::name_steps))]
pub fn name_of(alloc: Global, word: &[u8]) -> Result<Name, AllocError>
    requires { IsAscii word.now }
    ensures { IfOk result (λ name. name ≡ word.now) }
{
    // ASCII is UTF-8, so the bytes needn't be checked again
    let text = unsafe { str::from_utf8_unchecked(word) };
    Name::new(alloc, text)
}
