//! The edits that occur only in scripts.
ghost use Rattle.std.specs.Prelude.{◌≡◌, ◌∷◌, []};
ghost use Rattle.mp_text.specs.declared.single_word.SingleWord.TheVariants.{Clear, Input, Output, InputDelay, Delay};
ghost use Rattle.mp_text.specs.Clauses.{IfOk, IsAscii, OutOfMemory, Gives, wire_or_none, texts, AreAscii, removal, port_change, single_edit};

use crate::lexing::{LineError, is_text, name_of, number_word, wire_or_none};
use crate::single_word::SingleWord;
use crate::stated_edit::stated_edit;
use mp_netlist::{Boxed, Format, Name, SingleEdit};
use std::alloc::{AllocError, Global};

/// The edit that a first word and the words after it state. A line may have each kind of module.
#[tactic(auto, using(crate::proofs::GivenLemmas::word_steps))]
pub fn single_edit(
    alloc: Global,
    first: SingleWord,
    words: &[&[u8]],
) -> Result<SingleEdit, LineError>
    requires { AreAscii words.now }
    ensures { Gives OutOfMemory (λ edit. edit) result (single_edit first (texts words.now)) }
{
    match (first, words) {
        (SingleWord::Stated(word), _) => stated_edit(alloc, Format::Large, word, words),
        (SingleWord::Remove, [thing, name]) => removal(alloc, thing, name),
        (SingleWord::Clear, [wire]) => clearance(alloc, wire),
        (SingleWord::Remove | SingleWord::Clear, _) => Err(LineError::WordCount),
        (_, [part, port, new]) => port_change(alloc, first, part, number_word(port)?, new),
        _ => Err(LineError::WordCount),
    }
}

/// The edit that removes the thing of this sort and name.
fn removal(alloc: Global, thing: &[u8], name: &[u8]) -> Result<SingleEdit, LineError>
    requires { IsAscii name.now }
    ensures { Gives OutOfMemory (λ edit. edit) result (removal thing.now name.now) }
{
    let name = name_of(alloc, name)?;
    match thing {
        _ if is_text(thing, "wire") => Ok(SingleEdit::RemoveWire { wire: name }),
        _ if is_text(thing, "module") => Ok(SingleEdit::RemoveModule { module: name }),
        _ if is_text(thing, "bundle") => Ok(SingleEdit::RemoveBundle { bundle: name }),
        _ => Err(LineError::UnknownStatement),
    }
}

/// The edit that removes the stimulus of the wire of this name.
fn clearance(alloc: Global, wire: &[u8]) -> Result<SingleEdit, LineError>
    requires { IsAscii wire.now }
    ensures { Gives OutOfMemory (λ edit. edit) result (single_edit Clear (wire.now ∷ [])) }
{
    Ok(SingleEdit::ClearStimulus {
        wire: name_of(alloc, wire)?,
    })
}

/// The edit that lets an input read another wire or an output drive another wire or none, or that sets the delay of a port.
fn port_change(
    alloc: Global,
    first: SingleWord,
    part: &[u8],
    port: u64,
    new: &[u8],
) -> Result<SingleEdit, LineError>
    requires part { IsAscii part.now }
    requires new { IsAscii new.now }
    ensures { Gives OutOfMemory (λ edit. edit) result (port_change first part.now port new.now) }
{
    match first {
        SingleWord::Input => input_change(alloc, part, port, new),
        SingleWord::Output => output_change(alloc, part, port, new),
        SingleWord::InputDelay => input_delay(alloc, part, port, new),
        _ => output_delay(alloc, part, port, new),
    }
}

/// The edit that lets an input read another wire.
fn input_change(alloc: Global, part: &[u8], port: u64, wire: &[u8]) -> Result<SingleEdit, LineError>
    requires part { IsAscii part.now }
    requires wire { IsAscii wire.now }
    ensures { Gives OutOfMemory (λ edit. edit) result (port_change Input part.now port wire.now) }
{
    Ok(SingleEdit::RewireInput {
        port,
        wire: Boxed::new(alloc, name_of(alloc, wire)?)?,
        module: name_of(alloc, part)?,
    })
}

/// The edit that lets an output drive another wire or none.
fn output_change(
    alloc: Global,
    part: &[u8],
    port: u64,
    wire: &[u8],
) -> Result<SingleEdit, LineError>
    requires part { IsAscii part.now }
    requires wire { IsAscii wire.now }
    ensures { Gives OutOfMemory (λ edit. edit) result (port_change Output part.now port wire.now) }
{
    Ok(SingleEdit::RewireOutput {
        port,
        wire: boxed_wire(alloc, wire)?,
        module: name_of(alloc, part)?,
    })
}

/// The edit that sets the delay of an input.
fn input_delay(alloc: Global, part: &[u8], port: u64, delay: &[u8]) -> Result<SingleEdit, LineError>
    requires { IsAscii part.now }
    ensures { Gives OutOfMemory (λ edit. edit) result (port_change InputDelay part.now port delay.now) }
{
    Ok(SingleEdit::SetInputDelay {
        port,
        delay: number_word(delay)?,
        module: name_of(alloc, part)?,
    })
}

/// The edit that sets the delay of an output.
fn output_delay(
    alloc: Global,
    part: &[u8],
    port: u64,
    delay: &[u8],
) -> Result<SingleEdit, LineError>
    requires { IsAscii part.now }
    ensures { Gives OutOfMemory (λ edit. edit) result (port_change Delay part.now port delay.now) }
{
    Ok(SingleEdit::SetDelay {
        port,
        delay: number_word(delay)?,
        module: name_of(alloc, part)?,
    })
}

/// The name of a wire in a block of its own; `None` for `-`. `AllocError` comes if memory runs out.
fn boxed_wire(alloc: Global, name: &[u8]) -> Result<Option<Boxed<Name>>, AllocError>
    requires { IsAscii name.now }
    ensures { IfOk result (λ wire. wire ≡ wire_or_none name.now) }
{
    match wire_or_none(alloc, name)? {
        Some(wire) => Ok(Some(Boxed::new(alloc, wire)?)),
        None => Ok(None),
    }
}
