//! How a line of a text changes the netlist.
#![tactic(auto, using(crate::proofs::lemmas::lexing::WordLemmas::rest_ascii), unfolding(crate::specs::Texts::after_line, crate::specs::Statements::statement_of, crate::specs::Texts::after_statement))]

ghost use Rattle.std.specs.Prelude.{◌≡◌};
ghost use Rattle.mp_text.specs.Clauses.{OutOfMemory, max_horizon, Gives, texts, AreAscii, Line, Refused, Open, stated_number, Format, Start, Change, statement_of, begun, after_statement, after_line, told};

use crate::edit_word::EditWord;
use crate::lexing::{LineError, is_text, number_word, read_line_words};
use crate::stated_edit::{stated_edit, stated_module};
use crate::text_code::TextCode;
use crate::text_format::TextFormat;
use crate::text_state::TextState;
use mp_netlist::{Edit, EditError, Netlist, NewError};
use std::alloc::Global;
use std::hash::RandomState;
use std::mem;

/// Applies a line to the state of the text so far. `words` is reused from line to line. The state is lent and not passed by value, since its owner
/// would have to drop it at each place that reports a fault. A netlist that begins here hashes names by these keys, and has room for `room` wires and
/// as many modules, if there is memory for it.
pub fn line<'a>(
    alloc: Global,
    keys: RandomState,
    state: &mut TextState,
    words: &mut Vec<&'a [u8]>,
    line: &'a [u8],
    room: usize,
) -> Result<(), TextCode>
    ensures { Gives (Line OutOfMemory) (λ _. state.new) result (after_line state.old line.now) }
{
    read_line_words(words, line)?;
    statement(alloc, keys, state, words.as_slice(), room)
}

/// Applies the words of a line to the state of the text so far.
fn statement(
    alloc: Global,
    keys: RandomState,
    state: &mut TextState,
    words: &[&[u8]],
    room: usize,
) -> Result<(), TextCode>
    requires { AreAscii words.now }
    ensures { Gives (Line OutOfMemory) (λ _. state.new) result (after_statement state.old (statement_of (texts words.now))) }
{
    let [word, others @ ..] = words else {
        return Ok(());
    };
    let word: &[u8] = word;
    if is_text(word, "format") {
        return format(state, others);
    }
    if is_text(word, "horizon") {
        return start(alloc, keys, state, others, room);
    }
    match EditWord::from_word(word) {
        Some(first) => change(alloc, state, first, others),
        None => Err(TextCode::Line(LineError::UnknownStatement)),
    }
}

/// Sets the format that the words state, on the first line with words.
fn format(state: &mut TextState, words: &[&[u8]]) -> Result<(), TextCode>
    ensures { Gives (Line OutOfMemory) (λ _. state.new) result (after_statement state.old (Format (stated_number (texts words.now)))) }
{
    if !matches!(state, TextState::Fresh) {
        return Err(TextCode::BadFormat);
    }
    let format = TextFormat::of(stated_number(words)?)?;
    set_state(state, TextState::Formatted(format));
    Ok(())
}

/// Begins a netlist with the horizon that the words state.
fn start(
    alloc: Global,
    keys: RandomState,
    state: &mut TextState,
    words: &[&[u8]],
    room: usize,
) -> Result<(), TextCode>
    ensures { Gives (Line OutOfMemory) (λ _. state.new) result (after_statement state.old (Start (stated_number (texts words.now)))) }
{
    let format = match state {
        TextState::Fresh => TextFormat::First,
        TextState::Formatted(format) => *format,
        TextState::Open(_) => return Err(TextCode::SecondHorizon),
    };
    let horizon = stated_number(words)?;
    let netlist = empty_netlist(alloc, keys, format, horizon, room)?;
    set_state(state, TextState::Open(netlist));
    Ok(())
}

/// Puts a state in place of the one before.
fn set_state(state: &mut TextState, next: TextState)
    ensures { state.new ≡ next }
{
    // The state before is dropped by a call, for the same reason as what is read in `change`.
    drop(mem::replace(state, next));
}

/// The empty netlist of a horizon that a text of this format may state.
fn empty_netlist(
    alloc: Global,
    keys: RandomState,
    format: TextFormat,
    horizon: u64,
    room: usize,
) -> Result<Netlist, TextCode>
    ensures { Gives (Line OutOfMemory) (λ netlist. Open netlist) result (begun format horizon) }
{
    if horizon < 1 || horizon > format.max_horizon() {
        return Err(TextCode::Line(LineError::BadNumber));
    }
    match Netlist::with_room(alloc, keys, format.netlist(), horizon, room) {
        Ok(netlist) => Ok(netlist),
        Err(NewError::BadHorizon) => Err(TextCode::Line(LineError::BadNumber)),
        Err(NewError::OutOfMemory) => Err(TextCode::Line(LineError::OutOfMemory)),
    }
}

/// The number that the words state, if they are one word that is a number.
pub fn stated_number(words: &[&[u8]]) -> Result<u64, LineError>
    ensures { result ≡ stated_number (texts words.now) }
{
    match words {
        [word] => number_word(word),
        _ => Err(LineError::WordCount),
    }
}

/// Makes the edit that a line states, if there is a netlist.
#[tactic(auto, using(crate::proofs::GivenLemmas::gives_told), unfolding(crate::specs::Texts::after_statement))]
fn change(
    alloc: Global,
    state: &mut TextState,
    first: EditWord,
    words: &[&[u8]],
) -> Result<(), TextCode>
    requires { AreAscii words.now }
    ensures { Gives (Line OutOfMemory) (λ _. state.new) result (after_statement state.old (Change first (texts words.now))) }
{
    let TextState::Open(netlist) = state else {
        return Err(TextCode::NoHorizon);
    };
    let format = netlist.format();
    // What is read is dropped by a call: at the end of a scope, the drop of each of its parts would stand here.
    match first {
        // a module needs no block of its own here, unlike an edit
        EditWord::Module => {
            let module = stated_module(alloc, format, words)?;
            told(netlist.apply_module(module))
        }
        _ => {
            let edit = Edit::Single(stated_edit(alloc, format, first, words)?);
            let ended = netlist.apply(&edit);
            drop(edit);
            told(ended)
        }
    }
}

/// The fault of a line whose edit ended in this way.
fn told(ended: Result<(), EditError>) -> Result<(), TextCode>
    ensures { result ≡ told ended }
{
    match ended {
        Ok(()) => Ok(()),
        Err(EditError::OutOfMemory) => Err(TextCode::Line(LineError::OutOfMemory)),
        Err(error) => Err(TextCode::Refused(error)),
    }
}
