//! Batches in scripts.
ghost use Rattle.std.specs.Prelude.{◌≡◌, ◌∷◌};
ghost use Rattle.mp_text.specs.Clauses.{IfOk, All, slice_split, byte, OutOfMemory, Gives, texts, AreAscii, is_mark, part_edit, each_part, batch_of, part_texts};

use crate::lexing::LineError;
use crate::script_edit::single_edit;
use crate::single_word::SingleWord;
use crate::stated_edit::is_mark;
use mp_netlist::{Batch, SingleEdit};
use std::alloc::{AllocError, Global};

/// The batch that the words after `batch` state.
pub fn batch(alloc: Global, words: &[&[u8]]) -> Result<Batch, LineError>
    requires { AreAscii words.now }
    ensures { Gives OutOfMemory (λ batch. batch) result (batch_of (texts words.now)) }
{
    let parts = parts(alloc, words)?;
    each_part(alloc, parts.as_slice())
}

/// The parts of the words, between the words `;`.
fn parts<'a, 'b>(alloc: Global, words: &'a [&'b [u8]]) -> Result<Vec<&'a [&'b [u8]]>, AllocError>
    requires { AreAscii words.now }
    ensures parts { IfOk result (λ parts. part_texts parts.items ≡ slice_split (is_mark (byte ";")) (texts words.now)) }
    ensures ascii { IfOk result (λ parts. All (λ part. AreAscii part.now) parts.items) }
{
    words.split(|word| is_mark(b';', word)).collect(alloc)
}

/// The batch of the edits that the parts state, in order.
#[tactic(auto, using(crate::proofs::BundleStageLemmas::batch_line_each_part_steps))]
fn each_part(alloc: Global, parts: &[&[&[u8]]]) -> Result<Batch, LineError>
    requires { All (λ part. AreAscii part.now) parts.now }
    ensures { Gives OutOfMemory (λ batch. batch) result (each_part (part_texts parts.now)) }
{
    let mut edits = Vec::with_capacity(alloc, parts.len())?;
    for part in parts {
        let edit = part_edit(alloc, part)?;
        edits.push(edit)?;
    }
    Ok(Batch::new(edits))
}

/// The edit of one thing that the words of a part state.
#[tactic(auto, using(crate::proofs::lemmas::lexing::WordLemmas::rest_ascii))]
fn part_edit(alloc: Global, words: &[&[u8]]) -> Result<SingleEdit, LineError>
    requires { AreAscii words.now }
    ensures { Gives OutOfMemory (λ edit. edit) result (part_edit (texts words.now)) }
{
    let [word, others @ ..] = words else {
        return Err(LineError::WordCount);
    };
    match SingleWord::from_word(word) {
        Some(first) => single_edit(alloc, first, others),
        None => Err(LineError::UnknownStatement),
    }
}
