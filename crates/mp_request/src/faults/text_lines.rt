//! Lines of a text by their numbers.
ghost use Rattle.std.specs.Prelude.{◌≡◌, ◌≤◌, length, IfOk, OnOk};
ghost use Rattle.mp_text.specs.Names.{lines_of};
ghost use Rattle.mp_request.specs.faults.TextLines.{bytes_of_lines, text_before, line_numbered, is_blank, netlist_before};

use mp_netlist::Netlist;
use mp_text::{LineError, TextCode, first_line, read_netlist, word_count};
use std::alloc::{AllocError, Global};
use std::hash::RandomState;

/// The number of bytes of the first `count` lines, with their line feeds; of all lines if there are fewer.
#[tactic(auto, using(crate::proofs::lemmas::faults::StepLemmas::bytes_steps))]
fn bytes_of_lines(text: &[u8], count: u32) -> usize
    ensures value { result ≡ bytes_of_lines count text.now }
    ensures within { result ≤ length text.now }
{
    let mut left = count;
    let mut at = 0;
    while left > 0 && at < text.len() {
        if text[at] == b'\n' {
            left -= 1;
        }
        at += 1;
    }
    at
}

/// The text before the line of this number, counted from 1.
pub(crate) fn text_before(text: &[u8], number: u32) -> &[u8]
    ensures { result.now ≡ text_before text.now number }
{
    &text[..bytes_of_lines(text, number.saturating_sub(1))]
}

/// The line of this number, counted from 1; empty if the text ends before it.
#[tactic(auto, using(std::proofs::lemmas::List::take_rest))]
pub(crate) fn line_numbered(text: &[u8], number: u32) -> &[u8]
    ensures { result.now ≡ line_numbered text.now number }
{
    first_line(&text[bytes_of_lines(text, number.saturating_sub(1))..]).0
}

/// Whether no line of the text has a word.
#[tactic(auto, unfolding(mp_text::specs::lexing::Lines::lines_of))]
pub(crate) fn is_blank(text: &[u8]) -> bool
    ensures { result ≡ is_blank text.now }
{
    let mut rest = text;
    while !rest.is_empty() {
        let (line, others) = first_line(rest);
        if word_count(line) != 0 {
            return false;
        }
        rest = others;
    }
    true
}

/// The netlist before the line of this number if the code is a refused edit, and otherwise `None`. `AllocError` comes if memory runs out.
pub(crate) fn netlist_before(
    alloc: Global,
    keys: RandomState,
    text: &[u8],
    number: u32,
    code: TextCode,
) -> Result<Option<Netlist>, AllocError>
    ensures { IfOk result (λ netlist. netlist ≡ netlist_before text.now number code) }
{
    let TextCode::Refused(_) = code else {
        return Ok(None);
    };
    match read_netlist(alloc, keys, text_before(text, number)) {
        Ok(netlist) => Ok(Some(netlist)),
        Err(error) => match error.code {
            TextCode::Line(LineError::OutOfMemory) => Err(AllocError),
            _ => Ok(None),
        },
    }
}
