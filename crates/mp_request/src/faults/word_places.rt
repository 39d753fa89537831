//! The word at fault in a line that is wrong by itself.
ghost use Rattle.std.specs.Prelude.{◌≡◌, ◌+◌, ◌≤◌, ◌<◌, All, IfOk, length};
ghost use Rattle.mp_text.specs.Names.{texts, AreAscii};
ghost use Rattle.mp_request.specs.faults.Places.{module_parts};
ghost use Rattle.mp_request.specs.faults.WordPlaces.{begins_with, first_unread, unread_part, number_place, lack_place, count_place, word_place};

use crate::faults::module_parts::{ModuleParts, behind, module_parts};
use crate::faults::module_places::port_place;
use crate::faults::word_place::WordPlace;
use mp_records::{InputName, OutputName};
use mp_text::{LineError, TextCode, Worded};
use std::alloc::{AllocError, Global};

/// The word at fault in a line that is wrong by itself. `is_first` says that no line before it has words. `AllocError` comes if memory runs out.
pub(crate) fn word_place(
    alloc: Global,
    is_first: bool,
    words: &[&[u8]],
    code: TextCode,
) -> Result<WordPlace, AllocError>
    requires { AreAscii words.now }
    ensures { IfOk result (λ place. place ≡ word_place is_first (texts words.now) code) }
{
    match code {
        TextCode::Line(LineError::UnknownStatement) if begins_with(words, b"module") => {
            Ok(WordPlace::Word(2))
        }
        TextCode::Line(LineError::WordCount) => Ok(count_place(words)),
        TextCode::Line(LineError::BadNumber) => number_place(alloc, words),
        TextCode::BadFormat if is_first => Ok(WordPlace::Word(1)),
        TextCode::NoHorizon if begins_with(words, b"format") => Ok(WordPlace::Word(words.len())),
        _ => Ok(WordPlace::Word(0)),
    }
}

/// Whether the first word is this one.
pub(crate) fn begins_with(words: &[&[u8]], word: &[u8]) -> bool
    requires { 0 < length word.now }
    ensures { result ≡ begins_with word.now (texts words.now) }
{
    match words {
        [first, ..] => *first == word,
        [] => false,
    }
}

/// The first word too many, or the end of the line.
fn count_place(words: &[&[u8]]) -> WordPlace
    requires { AreAscii words.now }
    ensures { result ≡ count_place (texts words.now) }
{
    if begins_with(words, b"module") {
        return lack_place(module_parts(words));
    }
    if begins_with(words, b"wire") {
        return WordPlace::Word(4);
    }
    if begins_with(words, b"bundle") {
        return WordPlace::Word(6);
    }
    if begins_with(words, b"stim") {
        return WordPlace::Word(words.len());
    }
    WordPlace::Word(2)
}

/// The place of the first input if there is no input, and otherwise that of the first output.
fn lack_place(parts: ModuleParts<'_, '_>) -> WordPlace
    ensures { result ≡ lack_place (record { params = texts parts.entry.params.now; inputs = texts parts.entry.inputs.now; outputs = texts parts.entry.outputs.now }) }
{
    if parts.inputs.is_empty() {
        return WordPlace::Input(0);
    }
    WordPlace::Output(0)
}

/// The first word that should be a number, or a pair with a number, and isn't.
fn number_place(alloc: Global, words: &[&[u8]]) -> Result<WordPlace, AllocError>
    requires { AreAscii words.now }
    ensures { IfOk result (λ place. place ≡ number_place (texts words.now)) }
{
    if begins_with(words, b"wire") {
        return unread_behind_name::<u64>(alloc, behind(words, 2));
    }
    if begins_with(words, b"module") {
        return unread_part(alloc, module_parts(words));
    }
    if begins_with(words, b"stim") {
        return unread_behind_name::<(u64, u64)>(alloc, behind(words, 2));
    }
    if begins_with(words, b"bundle") {
        return Ok(WordPlace::Word(5));
    }
    Ok(WordPlace::Word(1))
}

/// The first of the words after a statement and a name that can't be read as a `W`.
fn unread_behind_name<W: Worded>(alloc: Global, words: &[&[u8]]) -> Result<WordPlace, AllocError>
    requires { All (λ word. W.may_read word.now) words.now }
    ensures { IfOk result (λ place. place ≡ WordPlace.Word (2 + first_unread W.read (texts words.now))) }
{
    let read = first_unread::<W>(alloc, words)?;
    Ok(WordPlace::Word(2 + read))
}

/// The first parameter or port of a module that can't be read.
fn unread_part(alloc: Global, parts: ModuleParts<'_, '_>) -> Result<WordPlace, AllocError>
    requires inputs { AreAscii parts.inputs.now }
    requires outputs { AreAscii parts.outputs.now }
    ensures { IfOk result (λ place. place ≡ unread_part (record { params = texts parts.entry.params.now; inputs = texts parts.entry.inputs.now; outputs = texts parts.entry.outputs.now })) }
{
    let param = first_unread::<u64>(alloc, parts.params)?;
    if param < parts.params.len() {
        return Ok(WordPlace::Param(param));
    }
    let input = first_unread::<InputName>(alloc, parts.inputs)?;
    let output = first_unread::<OutputName>(alloc, parts.outputs)?;
    Ok(port_place(parts.inputs.len(), input, output))
}

/// The index of the first word that can't be read as a `W`, or the number of words. `AllocError` comes if memory runs out.
#[tactic(auto, using(crate::proofs::lemmas::faults::WordLemmas::place_texts))]
fn first_unread<W: Worded>(alloc: Global, words: &[&[u8]]) -> Result<usize, AllocError>
    requires { All (λ word. W.may_read word.now) words.now }
    ensures value { IfOk result (λ count. count ≡ first_unread W.read (texts words.now)) }
    ensures small { IfOk result (λ count. count < 9223372036854775808) }
{
    for (place, word) in words.iter().enumerate() {
        match W::from_word(alloc, word) {
            Ok(_) => {}
            Err(LineError::OutOfMemory) => return Err(AllocError),
            Err(_) => return Ok(place),
        }
    }
    Ok(words.len())
}
