//! The word at fault in a line that can't be read, and the name nearest to it.
ghost use Rattle.std.specs.Prelude.{◌≡◌, IfOk, IsAscii, unwrap_or, slice_get, []};
ghost use Rattle.mp_text.specs.Names.{texts, AreAscii, words_of};
ghost use Rattle.mp_request.specs.faults.Faults.{place_in, plain_span, plain_near, fault_span, fault_near, near_in, near_wire};
ghost use Rattle.mp_request.specs.faults.Nearest.{name_part};
ghost use Rattle.mp_request.specs.faults.TextLines.{line_numbered};

use crate::faults::edit_places::refusal_place;
use crate::faults::nearest;
use crate::faults::spans::{bad_span, before_byte, span_of, statement_part};
use crate::faults::text_lines::{is_blank, line_numbered, netlist_before, text_before};
use crate::faults::word_place::WordPlace;
use crate::faults::word_places::{begins_with, word_place};
use mp_netlist::{EditError, Name, Netlist};
use mp_text::{LineError, TextCode, TextError, is_plain, words};
use std::alloc::{AllocError, Global};
use std::hash::RandomState;

/// What is wrong in a line that can't be read.
#[derive(Drop)]
pub(crate) struct Fault {
    /// The word in its line: the index of its first byte, and the index after its last.
    pub(crate) span: (usize, usize),
    /// The name nearest to the word; `None` if none is near.
    pub(crate) near: Option<Name>,
}

/// Finds what is wrong in the line of the error. `AllocError` comes if memory runs out.
pub(crate) fn find_fault(
    alloc: Global,
    keys: RandomState,
    text: &[u8],
    error: TextError,
) -> Result<Fault, AllocError>
    ensures span { IfOk result (λ fault. fault.span ≡ fault_span text.now error) }
    ensures near { IfOk result (λ fault. fault.near ≡ fault_near text.now error) }
{
    let line = line_numbered(text, error.line);
    if !is_plain(line) {
        let span = bad_span(line);
        return Ok(Fault { span, near: None });
    }
    let netlist = netlist_before(alloc, keys, text, error.line, error.code)?;
    let fault = plain_fault(alloc, text, error, &netlist);
    // The netlist is dropped by a call: at the end of the scope, the drop of each of its parts would stand here.
    drop(netlist);
    fault
}

/// Finds what is wrong in a line whose bytes are all allowed. If its edit is refused, `netlist` is the netlist before it.
fn plain_fault(
    alloc: Global,
    text: &[u8],
    error: TextError,
    netlist: &Option<Netlist>,
) -> Result<Fault, AllocError>
    requires { IsAscii (line_numbered text.now error.line) }
    ensures span { IfOk result (λ fault. fault.span ≡ plain_span text.now error netlist.now) }
    ensures near { IfOk result (λ fault. fault.near ≡ plain_near text.now error netlist.now) }
{
    let line = line_numbered(text, error.line);
    let words = words(alloc, line)?;
    let fault = fault_in_words(alloc, text, error, netlist, words.as_slice());
    drop(words);
    fault
}

/// Finds what is wrong in a line with these words. If its edit is refused, `netlist` is the netlist before it.
fn fault_in_words(
    alloc: Global,
    text: &[u8],
    error: TextError,
    netlist: &Option<Netlist>,
    words: &[&[u8]],
) -> Result<Fault, AllocError>
    requires words { texts words.now ≡ words_of (line_numbered text.now error.line) }
    requires ascii { AreAscii words.now }
    ensures span { IfOk result (λ fault. fault.span ≡ plain_span text.now error netlist.now) }
    ensures near { IfOk result (λ fault. fault.near ≡ plain_near text.now error netlist.now) }
{
    let place = place_in(alloc, text, error, netlist, words)?;
    let index = place.index(words);
    let near = near_in(alloc, netlist, words, index, error.code)?;
    let line = line_numbered(text, error.line);
    let span = span_of(statement_part(line), index);
    Ok(Fault { span, near })
}

/// The place of the word at fault. If the edit of the line is refused, `netlist` is the netlist before it.
fn place_in(
    alloc: Global,
    text: &[u8],
    error: TextError,
    netlist: &Option<Netlist>,
    words: &[&[u8]],
) -> Result<WordPlace, AllocError>
    requires words { texts words.now ≡ words_of (line_numbered text.now error.line) }
    requires ascii { AreAscii words.now }
    ensures { IfOk result (λ place. place ≡ place_in text.now error.line netlist.now (line_numbered text.now error.line) error.code) }
{
    match error.code {
        TextCode::Refused(refusal) => {
            refusal_place(alloc, netlist, line_numbered(text, error.line), refusal)
        }
        code => word_place(alloc, is_blank(text_before(text, error.line)), words, code),
    }
}

/// The name nearest to the word at `index`, if that should be a statement, a kind or a wire; `None` if no name is near.
fn near_in(
    alloc: Global,
    netlist: &Option<Netlist>,
    words: &[&[u8]],
    index: usize,
    code: TextCode,
) -> Result<Option<Name>, AllocError>
    ensures { IfOk result (λ near. near ≡ near_in netlist.now (texts words.now) (name_part (unwrap_or (slice_get (texts words.now) index) [])) code) }
{
    let word = name_part(word_at(words, index));
    match code {
        TextCode::Line(LineError::UnknownStatement) if begins_with(words, b"module") => {
            nearest::near_kind(alloc, word)
        }
        TextCode::Line(LineError::UnknownStatement) => nearest::near_statement(alloc, word),
        TextCode::Refused(EditError::NoSuchWire) => near_wire(alloc, netlist, word),
        _ => Ok(None),
    }
}

/// The wire whose name is nearest to a word; `None` if there is no netlist or no name is near.
fn near_wire(
    alloc: Global,
    netlist: &Option<Netlist>,
    word: &[u8],
) -> Result<Option<Name>, AllocError>
    ensures { IfOk result (λ near. near ≡ near_wire netlist.now word.now) }
{
    match netlist {
        Some(netlist) => nearest::near_wire(alloc, word, netlist),
        None => Ok(None),
    }
}

/// The word at this index; empty if there are fewer words.
fn word_at<'a>(words: &[&'a [u8]], index: usize) -> &'a [u8]
    ensures { result.now ≡ unwrap_or (slice_get (texts words.now) index) [] }
{
    if index < words.len() {
        return words[index];
    }
    &[]
}

/// The bytes before the first `/`.
fn name_part(word: &[u8]) -> &[u8]
    ensures { result.now ≡ name_part word.now }
{
    before_byte(b'/', word)
}
