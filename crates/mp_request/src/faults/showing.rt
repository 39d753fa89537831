//! What is shown of a line that can't be read.
ghost use Rattle.std.specs.Prelude.{◌≡◌, ◌++◌, ◌-◌, IfOk, Some, length, map, take, drop, replicate, codes};
ghost use Rattle.std.specs.Fmt.{decimal};
ghost use Rattle.mp_request.specs.faults.TextLines.{line_numbered};
ghost use Rattle.mp_request.specs.faults.FaultTexts.{shown_byte, dots_before, dots_behind, shown_part, marks, margin, located, fault_line, elsewhere, meant, suggestion, word_at, fault_text, width, lead};

use crate::faults::fault::{Fault, find_fault};
use crate::faults::spans::{is_allowed, is_gap};
use crate::faults::text_lines::line_numbered;
use mp_netlist::Name;
use mp_text::TextError;
use std::alloc::{AllocError, Global};
use std::hash::RandomState;

/// At most this many bytes of a line are shown.
const WIDTH: usize = 68;

/// At most this many of them are before the word at fault.
const LEAD: usize = 32;

/// Shows a line that can't be read: the line with its number, marks below the word at fault, and the meaning of the error with a name near the word,
/// without the last line feed. Names of the text are hashed by these keys. For line 0, which is no line, it is the meaning alone. `AllocError` comes
/// if memory runs out.
pub fn fault_text(
    alloc: Global,
    keys: RandomState,
    text: &[u8],
    error: TextError,
    meaning: &str,
) -> Result<Vec<u8>, AllocError>
    ensures { IfOk result (λ shown. shown.items ≡ fault_text text.now error meaning.now) }
{
    let fault = find_fault(alloc, keys, text, error)?;
    let shown = shown_fault(alloc, text, error, meaning, &fault);
    // The fault is dropped by a call: at the end of the scope, the drop of each of its parts would stand here.
    drop(fault);
    shown
}

/// Shows the line of an error with this fault, as `fault_text` does.
fn shown_fault(
    alloc: Global,
    text: &[u8],
    error: TextError,
    meaning: &str,
    fault: &Fault,
) -> Result<Vec<u8>, AllocError>
    ensures { IfOk result (λ shown. shown.items ≡ fault_line text.now error fault.now.span ++ (codes "     " ++ (meaning.now ++ suggestion (word_at (line_numbered text.now error.line) fault.now.span) fault.now.near))) }
{
    let mut shown = Vec::new(alloc);
    push_fault_line(&mut shown, text, error, fault.span)?;
    let word = word_at(line_numbered(text, error.line), fault.span);
    push_meaning(&mut shown, meaning, word, &fault.near)?;
    Ok(shown)
}

/// The word at a place of a line.
fn word_at(line: &[u8], span: (usize, usize)) -> &[u8]
    ensures { result.now ≡ word_at line.now span }
{
    front(span.1.saturating_sub(span.0), behind(span.0, line))
}

/// Appends the meaning of an error at a word, with what may have been meant, if there is something.
fn push_meaning(
    text: &mut Vec<u8>,
    meaning: &str,
    word: &[u8],
    near: &Option<Name>,
) -> Result<(), AllocError>
    ensures { IfOk result (λ _. text.new.items ≡ text.old.items ++ (codes "     " ++ (meaning.now ++ suggestion word.now near.now))) }
{
    text.extend_from_slice(b"     ")?;
    text.extend_from_slice(meaning.as_bytes())?;
    push_suggestion(text, word, near)
}

/// Appends the line of the error with marks below the word at fault, unless the error is of line 0.
fn push_fault_line(
    shown: &mut Vec<u8>,
    text: &[u8],
    error: TextError,
    span: (usize, usize),
) -> Result<(), AllocError>
    ensures { IfOk result (λ _. shown.new.items ≡ shown.old.items ++ fault_line text.now error span) }
{
    if error.line == 0 {
        return Ok(());
    }
    push_line(shown, line_numbered(text, error.line), error.line, span)
}

/// Appends the line with its number, and the marks below it.
fn push_line(
    text: &mut Vec<u8>,
    line: &[u8],
    number: u32,
    span: (usize, usize),
) -> Result<(), AllocError>
    ensures { IfOk result (λ _. text.new.items ≡ text.old.items ++ located line.now number span) }
{
    let digits = number.to_string(*text.allocator())?;
    push_numbered(text, line, digits.as_bytes(), span)
}

/// Appends the line after its number, and the marks below it.
fn push_numbered(
    text: &mut Vec<u8>,
    line: &[u8],
    number: &[u8],
    span: (usize, usize),
) -> Result<(), AllocError>
    ensures { IfOk result (λ _. text.new.items ≡ text.old.items ++ (margin number.now ++ (shown_part line.now span.0 ++ (codes "\n" ++ (margin (replicate (length number.now) 32) ++ (marks span ++ codes "\n")))))) }
{
    push_margin(text, number)?;
    push_part(text, line, span.0)?;
    text.extend_from_slice(b"\n")?;
    push_marked_line(text, number.len(), span)
}

/// Appends the marks below a line whose number has this number of digits.
fn push_marked_line(
    text: &mut Vec<u8>,
    digits: usize,
    span: (usize, usize),
) -> Result<(), AllocError>
    ensures { IfOk result (λ _. text.new.items ≡ text.old.items ++ (margin (replicate digits 32) ++ (marks span ++ codes "\n"))) }
{
    push_blank_margin(text, digits)?;
    push_marks(text, span)?;
    text.extend_from_slice(b"\n")
}

/// Appends blanks in place of a number with this number of digits, and a bar.
fn push_blank_margin(text: &mut Vec<u8>, digits: usize) -> Result<(), AllocError>
    ensures { IfOk result (λ _. text.new.items ≡ text.old.items ++ margin (replicate digits 32)) }
{
    push_times(text, b' ', 4_usize.saturating_sub(digits))?;
    push_times(text, b' ', digits)?;
    text.extend_from_slice(b" | ")
}

/// Appends the number of a line and a bar.
fn push_margin(text: &mut Vec<u8>, number: &[u8]) -> Result<(), AllocError>
    ensures { IfOk result (λ _. text.new.items ≡ text.old.items ++ margin number.now) }
{
    push_times(text, b' ', 4_usize.saturating_sub(number.len()))?;
    text.extend_from_slice(number)?;
    text.extend_from_slice(b" | ")
}

/// Appends the part of the line around the word that begins at `from`.
fn push_part(text: &mut Vec<u8>, line: &[u8], from: usize) -> Result<(), AllocError>
    ensures { IfOk result (λ _. text.new.items ≡ text.old.items ++ shown_part line.now from) }
{
    text.extend_from_slice(dots_before(from))?;
    push_shown(text, front(WIDTH, behind(from.saturating_sub(LEAD), line)))?;
    text.extend_from_slice(dots_behind(from, line.len()))
}

/// The first `count` bytes, or all if there are fewer.
#[tactic(auto, using(crate::proofs::lemmas::faults::WordLemmas::part_steps))]
fn front(count: usize, bytes: &[u8]) -> &[u8]
    ensures { result.now ≡ take count bytes.now }
{
    &bytes[..count.min(bytes.len())]
}

/// The bytes after the first `count`, or none if there are fewer.
#[tactic(auto, using(crate::proofs::lemmas::faults::WordLemmas::part_steps))]
fn behind(count: usize, bytes: &[u8]) -> &[u8]
    ensures { result.now ≡ drop count bytes.now }
{
    &bytes[count.min(bytes.len())..]
}

/// Two dots if something is left out before the word that begins at `from`.
fn dots_before(from: usize) -> &'static [u8]
    ensures { result.now ≡ dots_before from }
{
    if from <= LEAD {
        return &[];
    }
    b"..".as_slice()
}

/// Two dots if something is left out after the part around the word that begins at `from`, in a line of `count` bytes.
fn dots_behind(from: usize, count: usize) -> &'static [u8]
    ensures { result.now ≡ dots_behind from count }
{
    if count.saturating_sub(from.saturating_sub(LEAD)) <= WIDTH {
        return &[];
    }
    b"..".as_slice()
}

/// Appends the bytes as they are shown.
fn push_shown(text: &mut Vec<u8>, bytes: &[u8]) -> Result<(), AllocError>
    ensures { IfOk result (λ _. text.new.items ≡ text.old.items ++ map shown_byte bytes.now) }
{
    for byte in bytes {
        text.push(shown_byte(*byte))?;
    }
    Ok(())
}

/// How a byte is shown: a gap as a space, and any other byte that isn't allowed as `?`.
fn shown_byte(byte: u8) -> u8
    ensures { result ≡ shown_byte byte }
{
    if is_gap(byte) {
        return b' ';
    }
    if is_allowed(byte) { byte } else { b'?' }
}

/// Appends the marks below a word.
fn push_marks(text: &mut Vec<u8>, span: (usize, usize)) -> Result<(), AllocError>
    ensures { IfOk result (λ _. text.new.items ≡ text.old.items ++ marks span) }
{
    push_times(text, b' ', dots_before(span.0).len() + span.0.min(LEAD))?;
    push_times(text, b'^', span.1.saturating_sub(span.0).min(WIDTH - LEAD))
}

/// Appends the byte `count` times.
fn push_times(text: &mut Vec<u8>, byte: u8, count: usize) -> Result<(), AllocError>
    ensures { IfOk result (λ _. text.new.items ≡ text.old.items ++ replicate count byte) }
{
    for _done in 0..count {
        text.push(byte)?;
    }
    Ok(())
}

/// Appends the name near to a word, if there is one: that it may have been meant, or that another format has the kind of this name.
fn push_suggestion(text: &mut Vec<u8>, word: &[u8], near: &Option<Name>) -> Result<(), AllocError>
    ensures { IfOk result (λ _. text.new.items ≡ text.old.items ++ suggestion word.now near.now) }
{
    match near {
        Some(name) => push_near(text, word, name),
        None => Ok(()),
    }
}

fn push_near(text: &mut Vec<u8>, word: &[u8], name: &Name) -> Result<(), AllocError>
    ensures { IfOk result (λ _. text.new.items ≡ text.old.items ++ suggestion word.now (Some name.now)) }
{
    if word == name.as_str().as_bytes() {
        return push_elsewhere(text, name);
    }
    push_meant(text, name)
}

/// Appends that another format has the kind of this name.
fn push_elsewhere(text: &mut Vec<u8>, name: &Name) -> Result<(), AllocError>
    ensures { IfOk result (λ _. text.new.items ≡ text.old.items ++ elsewhere name.now) }
{
    push_parts(text, b"; ", name.as_str().as_bytes(), b" needs format 4")
}

/// Appends that this name may have been meant.
fn push_meant(text: &mut Vec<u8>, name: &Name) -> Result<(), AllocError>
    ensures { IfOk result (λ _. text.new.items ≡ text.old.items ++ meant name.now) }
{
    push_parts(text, b"; did you mean `", name.as_str().as_bytes(), b"`?")
}

/// Appends three parts in order.
fn push_parts(
    text: &mut Vec<u8>,
    front: &[u8],
    middle: &[u8],
    back: &[u8],
) -> Result<(), AllocError>
    ensures { IfOk result (λ _. text.new.items ≡ text.old.items ++ (front.now ++ (middle.now ++ back.now))) }
{
    text.extend_from_slice(front)?;
    text.extend_from_slice(middle)?;
    text.extend_from_slice(back)
}
