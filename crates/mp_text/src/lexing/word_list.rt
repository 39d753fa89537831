//! The meanings of words, one by one.
#![tactic(auto, unfolding(crate::specs::lexing::WordLists::input_word, crate::specs::lexing::WordLists::output_word))]

ghost use Rattle.std.specs.Prelude.{◌≡◌, ◌<◌};
ghost use Rattle.mp_text.specs.lexing.Clauses.{ℕ, List, Result, All, IfOk, IsAscii, LineError, OutOfMemory, Gives, texts, list_any, is_slash, number_word, count_word, change_word, input_word, wire_or_none, output_word, each_word};

use crate::lexing::line_error::LineError;
use crate::lexing::number::{name_and_number, time_and_value};
use crate::lexing::spelling::is_text;
use crate::lexing::word::name_of;
use mp_records::{InputName, Name, OutputName};
use mp_streams::spelled_number;
use std::alloc::{AllocError, Global};

/// The number below 2^64 that a word of 1 to 20 digits spells. `BadNumber` comes for any other word.
pub fn number_word(word: &[u8]) -> Result<u64, LineError>
    ensures { result ≡ number_word word.now }
{
    spelled_number(word).ok_or(LineError::BadNumber)
}

/// The number from 1 to `most` that a word spells. `BadNumber` comes for any other word.
pub fn count_word(word: &[u8], most: u32) -> Result<u32, LineError>
    ensures count { result ≡ count_word word.now most }
    ensures some { IfOk result (λ count. 0 < count) }
{
    let count = number_word(word)?;
    if count < 1 || count > u64::from(most) {
        return Err(LineError::BadNumber);
    }
    Ok(count as u32)
}

/// A value that one word states.
pub trait Worded: Drop {
    /// The words that it may be read from: all, unless an impl says otherwise.
    ghost may_read: { List ℕ → Type 0 } = { λ _. Unit {0} };

    /// The value that a word states, or the reason why it states none.
    ghost read: { List ℕ → Result Self LineError };

    /// The value that the word states. `OutOfMemory` comes if memory runs out.
    fn from_word(alloc: Global, word: &[u8]) -> Result<Self, LineError>
        requires { may_read word.now }
        ensures { Gives OutOfMemory (λ item. item) result (read word.now) };
}

/// A number, as in `12`.
impl Worded for u64 {
    ghost read = { number_word };

    fn from_word(_alloc: Global, word: &[u8]) -> Result<Self, LineError> {
        number_word(word)
    }
}

/// A pair of a time and a value, as in `5=1`.
impl Worded for (u64, u64) {
    ghost read = { change_word };

    fn from_word(_alloc: Global, word: &[u8]) -> Result<Self, LineError> {
        time_and_value(word).ok_or(LineError::BadNumber)
    }
}

/// An input, as in `a`, or with its delay, as in `a/4`.
impl Worded for InputName {
    ghost may_read = { IsAscii };

    ghost read = { input_word };

    fn from_word(alloc: Global, word: &[u8]) -> Result<Self, LineError> {
        if !has_slash(word) {
            return Ok(InputName {
                wire: name_of(alloc, word)?,
                delay: 0,
            });
        }
        let (name, delay) = name_and_number(word).ok_or(LineError::BadNumber)?;
        Ok(InputName {
            wire: name_of(alloc, name)?,
            delay,
        })
    }
}

fn has_slash(word: &[u8]) -> bool
    ensures { result ≡ list_any is_slash word.now }
{
    word.iter().any(|byte| *byte == b'/')
}

/// The name of a wire; `None` for `-`. `AllocError` comes if memory runs out.
pub fn wire_or_none(alloc: Global, name: &[u8]) -> Result<Option<Name>, AllocError>
    requires { IsAscii name.now }
    ensures { IfOk result (λ wire. wire ≡ wire_or_none name.now) }
{
    if is_text(name, "-") {
        return Ok(None);
    }
    Ok(Some(name_of(alloc, name)?))
}

/// An output with its delay, as in `y/3`, or `-` for one without a wire.
impl Worded for OutputName {
    ghost may_read = { IsAscii };

    ghost read = { output_word };

    fn from_word(alloc: Global, word: &[u8]) -> Result<Self, LineError> {
        if is_text(word, "-") {
            return Ok(OutputName {
                wire: None,
                delay: 1,
            });
        }
        let (name, delay) = name_and_number(word).ok_or(LineError::BadNumber)?;
        Ok(OutputName {
            wire: wire_or_none(alloc, name)?,
            delay,
        })
    }
}

/// The values that the words state, in order, or the error of the first word that states none. `OutOfMemory` comes if memory runs out.
#[tactic(auto, using(crate::proofs::lemmas::lexing::WordListLemmas::each_steps))]
pub fn each_word<W: Worded>(alloc: Global, words: &[&[u8]]) -> Result<Vec<W>, LineError>
    requires { All (λ word. W.may_read word.now) words.now }
    ensures { Gives OutOfMemory (λ items. items.items) result (each_word W.read (texts words.now)) }
{
    let mut items = Vec::with_capacity(alloc, words.len())?;
    for word in words {
        let item = W::from_word(alloc, word)?;
        items.push(item)?;
    }
    Ok(items)
}
