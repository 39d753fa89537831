//! Inputs whose parts are divided by lines `---`.
ghost use Rattle.std.specs.Prelude.{◌≡◌, ◌<◌, ◌≤◌};
ghost use Rattle.mp_text.specs.lexing.Clauses.{length, vec_len, nat_lt, IfOk, lines_of, texts, is_division, are_division, first_part, later_parts, are_divided, parts_of, lines_of_each};

use crate::lexing::line::first_line;
use crate::lexing::word::words;
use std::alloc::{AllocError, Global};

/// The part of an input before the first line whose only word is `---`, and the part after that line. If there is no such line, these are the whole
/// input and nothing.
#[tactic(auto, using(crate::proofs::lemmas::lexing::DivisionLemmas::division_steps))]
pub fn divided(alloc: Global, input: &[u8]) -> Result<(&[u8], &[u8]), AllocError>
    ensures short { IfOk result (λ parts. length parts.0.now ≤ length input.now) }
    ensures front { IfOk result (λ parts. lines_of parts.0.now ≡ first_part (lines_of input.now)) }
    ensures back { IfOk result (λ parts. lines_of parts.1.now ≡ later_parts (lines_of input.now)) }
    ensures divided { IfOk result (λ parts. nat_lt (length parts.0.now) (length input.now) ≡ are_divided (lines_of input.now)) }
    ensures shorter { IfOk result (λ parts. length parts.0.now < length input.now → length parts.1.now < length input.now) }
{
    let mut at = 0;
    while at < input.len() {
        let (line, rest) = first_line(&input[at..]);
        if is_division(alloc, line)? {
            return Ok((&input[..at], rest));
        }
        at = input.len() - rest.len();
    }
    Ok((input, &[]))
}

/// The parts of an input between the lines whose only word is `---`: one more than there are such lines.
#[tactic(auto, using(crate::proofs::lemmas::lexing::DivisionLemmas::part_steps))]
pub fn parts(alloc: Global, input: &[u8]) -> Result<Vec<&[u8]>, AllocError>
    ensures some { IfOk result (λ parts. 0 < vec_len parts) }
    ensures parts { IfOk result (λ parts. lines_of_each parts.items ≡ parts_of (lines_of input.now)) }
{
    let mut parts = Vec::new(alloc);
    let mut rest = input;
    loop {
        let (front, back) = divided(alloc, rest)?;
        parts.push(front)?;
        if front.len() >= rest.len() {
            return Ok(parts);
        }
        rest = back;
    }
}

/// Whether the line divides an input.
#[tactic(auto, unfolding(crate::specs::lexing::Divisions::is_division))]
fn is_division(alloc: Global, line: &[u8]) -> Result<bool, AllocError>
    ensures { IfOk result (λ divides. divides ≡ is_division line.now) }
{
    let words = words(alloc, line)?;
    Ok(are_division(words.as_slice()))
}

fn are_division(words: &[&[u8]]) -> bool
    ensures { result ≡ are_division (texts words.now) }
{
    match words {
        [word] => *word == b"---".as_slice(),
        _ => false,
    }
}
