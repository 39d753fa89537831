//! The edits of statements.
ghost use Rattle.std.specs.Prelude.{◌≡◌, ◌<◌, ◌∷◌, []};
ghost use Rattle.mp_text.specs.declared.edit_word.EditWord.TheVariants.{Module};
ghost use Rattle.mp_text.specs.Clauses.{IsAscii, IfOk, IfSome, length, position, before_first, after_first, OutOfMemory, Gives, texts, AreAscii, wire_edit, stimulus_edit, bundle_edit, stated_edit, params_edit, ports_edit, module_edit, kind_word, is_mark, AddModule};

use crate::edit_word::EditWord;
use crate::lexing::{LineError, each_word, name_of, number_word};
use crate::text_format::has_kind;
use mp_modules::Kind;
use mp_netlist::{
    Boxed, Changes, Format, InputNames, Name, NewBundle, NewModule, OutputNames, Params, SingleEdit,
};
use std::alloc::{AllocError, Global};

/// The edit that a first word and the words after it state. A module has a kind that a text of this format may have.
pub fn stated_edit(
    alloc: Global,
    format: Format,
    word: EditWord,
    words: &[&[u8]],
) -> Result<SingleEdit, LineError>
    requires { AreAscii words.now }
    ensures { Gives OutOfMemory (λ edit. edit) result (stated_edit format word (texts words.now)) }
{
    match word {
        EditWord::Wire => wire_edit(alloc, words),
        EditWord::Module => module_edit(alloc, format, words),
        EditWord::Stimulus => stimulus_edit(alloc, words),
        EditWord::Bundle => bundle_edit(alloc, words),
    }
}

/// The edit that the words after `wire` state: it adds a wire.
#[tactic(auto, using(crate::proofs::GivenLemmas::word_steps))]
fn wire_edit(alloc: Global, words: &[&[u8]]) -> Result<SingleEdit, LineError>
    requires { AreAscii words.now }
    ensures { Gives OutOfMemory (λ edit. edit) result (wire_edit (texts words.now)) }
{
    let [name, width, level] = words else {
        return Err(LineError::WordCount);
    };
    Ok(SingleEdit::AddWire {
        width: number_word(width)?,
        level: number_word(level)?,
        name: name_of(alloc, name)?,
    })
}

/// The edit that the words after `module` state: it adds a module.
#[tactic(auto, using(crate::proofs::GivenLemmas::wanting_given))]
fn module_edit(alloc: Global, format: Format, words: &[&[u8]]) -> Result<SingleEdit, LineError>
    requires { AreAscii words.now }
    ensures { Gives OutOfMemory (λ edit. edit) result (stated_edit format Module (texts words.now)) }
{
    let module = stated_module(alloc, format, words)?;
    Ok(SingleEdit::AddModule(Boxed::new(alloc, module)?))
}

/// The edit that the words after `stim` state: it sets the stimulus of a wire.
#[tactic(auto, using(crate::proofs::GivenLemmas::word_steps))]
fn stimulus_edit(alloc: Global, words: &[&[u8]]) -> Result<SingleEdit, LineError>
    requires { AreAscii words.now }
    ensures { Gives OutOfMemory (λ edit. edit) result (stimulus_edit (texts words.now)) }
{
    let [wire, others @ ..] = words else {
        return Err(LineError::WordCount);
    };
    Ok(SingleEdit::SetStimulus {
        changes: Changes::new(each_word(alloc, others)?),
        wire: name_of(alloc, wire)?,
    })
}

/// The edit that the words after `bundle` state: it adds a bundle.
#[tactic(auto, using(crate::proofs::GivenLemmas::word_steps))]
fn bundle_edit(alloc: Global, words: &[&[u8]]) -> Result<SingleEdit, LineError>
    requires { AreAscii words.now }
    ensures { Gives OutOfMemory (λ edit. edit) result (bundle_edit (texts words.now)) }
{
    match words {
        [name, request, acknowledge, payload, setup] => bundle_of(
            alloc,
            name,
            request,
            acknowledge,
            payload,
            setup,
        ),
        _ => Err(LineError::WordCount),
    }
}

/// The edit that adds the bundle of these words.
#[tactic(auto, using(crate::proofs::GivenLemmas::wanting_given))]
fn bundle_of(
    alloc: Global,
    name: &[u8],
    request: &[u8],
    acknowledge: &[u8],
    payload: &[u8],
    setup: &[u8],
) -> Result<SingleEdit, LineError>
    requires name { IsAscii name.now }
    requires request { IsAscii request.now }
    requires acknowledge { IsAscii acknowledge.now }
    requires payload { IsAscii payload.now }
    ensures { Gives OutOfMemory (λ edit. edit) result (bundle_edit (name.now ∷ request.now ∷ acknowledge.now ∷ payload.now ∷ setup.now ∷ [])) }
{
    let setup = number_word(setup)?;
    let (name, request) = two_names(alloc, name, request)?;
    let (acknowledge, payload) = two_names(alloc, acknowledge, payload)?;
    let bundle = NewBundle {
        name,
        request,
        acknowledge,
        payload,
        setup,
    };
    Ok(SingleEdit::AddBundle(Boxed::new(alloc, bundle)?))
}

/// Two words as names. `AllocError` comes if memory runs out.
fn two_names(alloc: Global, first: &[u8], second: &[u8]) -> Result<(Name, Name), AllocError>
    requires first { IsAscii first.now }
    requires second { IsAscii second.now }
    ensures { IfOk result (λ names. names ≡ (first.now, second.now)) }
{
    let first = name_of(alloc, first)?;
    let second = name_of(alloc, second)?;
    Ok((first, second))
}

/// The module that the words after `module` state. Its kind is one that a text of this format may have.
pub fn stated_module(alloc: Global, format: Format, words: &[&[u8]]) -> Result<NewModule, LineError>
    requires { AreAscii words.now }
    ensures { Gives OutOfMemory AddModule result (module_edit format (texts words.now)) }
{
    let [name, kind, others @ ..] = words else {
        return Err(LineError::WordCount);
    };
    let (params, ports) = divided(b':', others);
    let (inputs, outputs) = divided(b'>', ports);
    if inputs.is_empty() || outputs.is_empty() {
        return Err(LineError::WordCount);
    }
    let kind = stated_kind(format, kind)?;
    module_of(alloc, name, kind, params, inputs, outputs)
}

/// The kind of this name, if a text of this format may have it.
fn stated_kind(format: Format, word: &[u8]) -> Result<Kind, LineError>
    ensures { result ≡ kind_word format word.now }
{
    match Kind::from_word(word) {
        Some(kind) if has_kind(format, kind) => Ok(kind),
        _ => Err(LineError::UnknownStatement),
    }
}

/// The module of this name and kind that these parts of the words after `module` state.
#[tactic(auto, using(crate::proofs::GivenLemmas::wanting_given))]
fn module_of(
    alloc: Global,
    name: &[u8],
    kind: Kind,
    params: &[&[u8]],
    ins: &[&[u8]],
    outs: &[&[u8]],
) -> Result<NewModule, LineError>
    requires name { IsAscii name.now }
    requires inputs { AreAscii ins.now }
    requires outputs { AreAscii outs.now }
    ensures { Gives OutOfMemory AddModule result (params_edit name.now kind (texts params.now) (texts ins.now) (texts outs.now)) }
{
    let params = Params::new(each_word(alloc, params)?);
    module_with_ports(alloc, name, kind, params, ins, outs)
}

/// The module of this name and kind and of these numbers, with the ports that the words state.
#[tactic(auto, using(crate::proofs::GivenLemmas::wanting_given))]
fn module_with_ports(
    alloc: Global,
    name: &[u8],
    kind: Kind,
    params: Params,
    ins: &[&[u8]],
    outs: &[&[u8]],
) -> Result<NewModule, LineError>
    requires name { IsAscii name.now }
    requires inputs { AreAscii ins.now }
    requires outputs { AreAscii outs.now }
    ensures { Gives OutOfMemory AddModule result (ports_edit name.now kind params (texts ins.now) (texts outs.now)) }
{
    Ok(NewModule {
        inputs: InputNames::new(each_word(alloc, ins)?),
        outputs: OutputNames::new(each_word(alloc, outs)?),
        name: name_of(alloc, name)?,
        kind,
        params,
    })
}

/// The words before and after the first word that is this byte alone; all words and none if there is no such word.
#[tactic(auto, using(crate::proofs::PartLemmas::divided_steps))]
fn divided<'a, 'b>(mark: u8, words: &'a [&'b [u8]]) -> (&'a [&'b [u8]], &'a [&'b [u8]])
    requires { AreAscii words.now }
    ensures front { texts result.0.now ≡ before_first (is_mark mark) (texts words.now) }
    ensures back { texts result.1.now ≡ after_first (is_mark mark) (texts words.now) }
    ensures front_ascii { AreAscii result.0.now }
    ensures back_ascii { AreAscii result.1.now }
{
    split_at_mark(mark, words)
}

fn split_at_mark<'a, 'b>(mark: u8, words: &'a [&'b [u8]]) -> (&'a [&'b [u8]], &'a [&'b [u8]])
    ensures front { result.0.now ≡ before_first (λ word. is_mark mark word.now) words.now }
    ensures back { result.1.now ≡ after_first (λ word. is_mark mark word.now) words.now }
{
    match place_of_mark(mark, words) {
        Some(at) => (&words[..at], &words[at + 1..]),
        None => (words, &words[words.len()..]),
    }
}

fn place_of_mark(mark: u8, words: &[&[u8]]) -> Option<usize>
    ensures place { result ≡ position (λ word. is_mark mark word.now) words.now }
    ensures within { IfSome result (λ at. at < length words.now) }
{
    words.iter().position(|word| is_mark(mark, word))
}

/// Whether the word is this byte alone.
pub fn is_mark(mark: u8, word: &[u8]) -> bool
    ensures { result ≡ is_mark mark word.now }
{
    word == [mark].as_slice()
}
