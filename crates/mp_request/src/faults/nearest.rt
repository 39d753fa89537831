//! The name nearest to a word.
ghost use Rattle.std.specs.Prelude.{◌≡◌, ◌&&◌, ◌∷◌, List, ℕ, Some, IfOk, drop, map};
ghost use Rattle.std.specs.List.{before_first};
ghost use Rattle.mp_netlist.specs.Circuit.{wire_at};
ghost use Rattle.mp_text.specs.lexing.Numbers.{is_slash};
ghost use Rattle.mp_request.specs.faults.Nearest.{distance, is_near, is_nearer, nearer, nearest, wire_names, statement_words, kind_words, name_part};

use mp_netlist::{Name, Netlist, WireId};
use std::alloc::{AllocError, Global};
use strsim::generic_levenshtein;

/// The greatest length of a name, in bytes.
const NAME_BYTES: usize = 32;

/// The first words of a netlist's lines.
const STATEMENTS: [&str; 6] = ["horizon", "wire", "module", "bundle", "stim", "format"];

/// The words of the kinds of module.
const KINDS: [&str; 19] = [
    "BUF", "NOT", "XOR", "C", "TOGGLE", "SELECT", "CALL", "ARBITER", "REG", "ADDC", "XORC", "SUM",
    "BIT", "AND", "OR", "SUB", "LESS", "MUX", "JOIN",
];

/// The statement nearest to a word; `None` if none is near. `AllocError` comes if memory runs out.
pub(crate) fn near_statement(alloc: Global, word: &[u8]) -> Result<Option<Name>, AllocError>
    ensures { IfOk result (λ near. near ≡ nearest word.now statement_words) }
{
    near_word(alloc, word, &STATEMENTS)
}

/// The kind of module nearest to a word; `None` if none is near. `AllocError` comes if memory runs out.
pub(crate) fn near_kind(alloc: Global, word: &[u8]) -> Result<Option<Name>, AllocError>
    ensures { IfOk result (λ near. near ≡ nearest word.now kind_words) }
{
    near_word(alloc, word, &KINDS)
}

/// The nearest of some names; `None` if none is near.
#[tactic(auto, using(crate::proofs::lemmas::faults::NearLemmas::near_word_steps))]
fn near_word(alloc: Global, word: &[u8], words: &[&str]) -> Result<Option<Name>, AllocError>
    ensures { IfOk result (λ near. near ≡ nearest word.now (map (λ name. name.now) words.now)) }
{
    let mut best = None;
    for name in words {
        best = nearer(alloc, word, best, Name::new(alloc, name)?)?;
    }
    Ok(best)
}

/// The wire whose name is nearest to a word; `None` if none is near. `AllocError` comes if memory runs out.
#[tactic(auto, using(crate::proofs::lemmas::faults::NearLemmas::near_wire_steps))]
pub(crate) fn near_wire(
    alloc: Global,
    word: &[u8],
    netlist: &Netlist,
) -> Result<Option<Name>, AllocError>
    ensures { IfOk result (λ near. near ≡ nearest word.now (wire_names netlist.now.wires)) }
{
    let mut best = None;
    for number in 0..netlist.wire_slots() {
        if let Some(wire) = netlist.wire(WireId(number)) {
            best = nearer(alloc, word, best, wire.name.clone()?)?;
        }
    }
    Ok(best)
}

/// The nearer of two names; the first one may be `None`.
fn nearer(
    alloc: Global,
    word: &[u8],
    best: Option<Name>,
    name: Name,
) -> Result<Option<Name>, AllocError>
    ensures { IfOk result (λ near. near ≡ nearer word.now best name) }
{
    // The names that aren't returned are dropped by calls: at the end of the scope, the drop of each of their parts would stand here.
    match replaces(alloc, word, &best, &name) {
        Ok(true) => {
            drop(best);
            Ok(Some(name))
        }
        Ok(false) => {
            drop(name);
            Ok(best)
        }
        Err(error) => {
            drop(best);
            drop(name);
            Err(error)
        }
    }
}

/// Whether a name is near to a word, and nearer than the best one so far, if there is one.
fn replaces(
    alloc: Global,
    word: &[u8],
    best: &Option<Name>,
    name: &Name,
) -> Result<bool, AllocError>
    ensures { IfOk result (λ replaces. replaces ≡ (is_near word.now (distance word.now name.now) && is_nearer word.now best.now (distance word.now name.now))) }
{
    if word.len() > NAME_BYTES {
        return Ok(false);
    }
    let new = distance(alloc, word, name)?;
    if new.saturating_mul(3) > word.len() {
        return Ok(false);
    }
    is_nearer(alloc, word, new, best)
}

/// Whether the distance is below that of the name, or there is no name.
fn is_nearer(
    alloc: Global,
    word: &[u8],
    new: usize,
    best: &Option<Name>,
) -> Result<bool, AllocError>
    ensures { IfOk result (λ nearer. nearer ≡ is_nearer word.now best.now new) }
{
    match best {
        Some(name) => Ok(new < distance(alloc, word, name)?),
        None => Ok(true),
    }
}

/// The edit distance of two words, without regard to case: the least number of insertions, deletions and substitutions.
fn distance(alloc: Global, word: &[u8], name: &Name) -> Result<usize, AllocError>
    ensures { IfOk result (λ count. count ≡ distance word.now name.now) }
{
    let word = word.to_ascii_lowercase(alloc)?;
    let name = name.as_str().as_bytes().to_ascii_lowercase(alloc)?;
    generic_levenshtein(alloc, word.as_slice(), name.as_slice())
}
