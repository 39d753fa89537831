//! Reading a netlist's text.
ghost use Rattle.std.specs.Prelude.{◌≤◌};
ghost use Rattle.mp_text.specs.Clauses.{IfErr, length, lines_of, Fresh, max_text, text_at, after_lines, GivesText, IsReached, IsReachedIn};

use crate::lexing::first_line;
use crate::statement::line;
use crate::text_code::TextCode;
use crate::text_error::TextError;
use crate::text_size::text_limit;
use crate::text_state::TextState;
use mp_netlist::Netlist;
use std::alloc::Global;
use std::hash::RandomState;

/// The bytes of text for which there is room for a wire and a module, before the text is read. Few texts have more wires or modules.
const BYTES_OF_A_MODULE: usize = 64;

/// Reads a netlist from a text of statements, one on each line: the empty netlist of the statement `horizon`, after the edits of the statements
/// `wire`, `module`, `stim` and `bundle` in turn. A statement `format` may come first. The netlist hashes its names by these keys: for a text that
/// others wrote they come from the runtime.
///
/// The error is the first line that fails, counted from 1, with its first fault: a byte that isn't allowed, even in a comment (`NotAscii`); a first
/// word that isn't a statement (`UnknownStatement`); a `format` that is not on the first line with words (`BadFormat`), a second `horizon`
/// (`SecondHorizon`) or another statement before it (`NoHorizon`); the number or shape of the words (`WordCount`); a kind that doesn't exist
/// (`UnknownStatement`); a word that isn't the number or the pair that it should be, or a horizon not 1 to 65,536, or with `format 2` not 1 to
/// 1,048,576, or with `format 4` not 1 to 1,073,741,824 (`BadNumber`); a `format` that is not 1, 2 or 4 (`BadFormat`); an edit that is refused
/// (`Refused`). `TooLong` with line 0 comes for a text that is longer than its format allows, and `NoHorizon` with the number of lines for one
/// without a horizon. `OutOfMemory` comes with the line at which memory ran out, which isn't after the first line that fails.
#[tactic(auto, using(crate::proofs::TextLemmas::text_over, crate::proofs::TextLemmas::text_within))]
pub fn read_netlist(alloc: Global, keys: RandomState, text: &[u8]) -> Result<Netlist, TextError>
    ensures read { GivesText result (text_at text.now) }
    ensures reached { IfErr result (IsReached text.now) }
{
    let limit = text_limit(text);
    if text.len() > limit {
        return Err(TextError {
            line: 0,
            code: TextCode::TooLong,
        });
    }
    read_lines(alloc, keys, text)
}

/// Reads a netlist as `read_netlist` does, from a text that may be as long as one of any format.
#[tactic(auto, using(crate::proofs::TextLemmas::reading_read_lines_steps))]
pub fn read_lines(alloc: Global, keys: RandomState, text: &[u8]) -> Result<Netlist, TextError>
    requires { length text.now ≤ max_text }
    ensures read { GivesText result (after_lines 0 Fresh (lines_of text.now)) }
    ensures reached { IfErr result (IsReachedIn text.now (after_lines 0 Fresh (lines_of text.now))) }
{
    let mut state = TextState::Fresh;
    let mut number = 0;
    let mut words = Vec::new(alloc);
    let room = text.len() / BYTES_OF_A_MODULE;
    let mut rest = text;
    while !rest.is_empty() {
        let (front, others) = first_line(rest);
        number += 1;
        match line(alloc, keys, &mut state, &mut words, front, room) {
            Ok(()) => rest = others,
            Err(code) => {
                drop(state);
                return Err(TextError { line: number, code });
            }
        }
    }
    state.finished(number)
}
