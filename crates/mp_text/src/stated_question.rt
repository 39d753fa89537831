//! The questions of a script's lines.
ghost use Rattle.std.specs.Prelude.{◌≡◌, []};
ghost use Rattle.mp_text.specs.declared.question_word.QuestionWord.TheVariants.{Wave, Report, Check, Show, Why, Path, Waits, Measure, Edits};
ghost use Rattle.mp_text.specs.Clauses.{IfOk, IsAscii, OutOfMemory, Gives, texts, AreAscii, stated_question, range_of, check_of, picture_question, since_question, chain_question};

use crate::lexing::{LineError, count_word, is_text, name_of, number_word};
use crate::question::Question;
use crate::question_word::QuestionWord;
use crate::stated_picture::{options_of, wires_and_options};
use crate::wire_names::WireNames;
use std::alloc::{AllocError, Global};

/// The greatest number of steps of a chain.
pub const MAX_STEPS: u32 = 1_048_576;

/// The number of steps of a chain if a question doesn't give one.
pub const USUAL_STEPS: u32 = 20;

/// The end of a range of times that has none.
const NO_END: u64 = u64::MAX;

/// The question that a first word and the words after it state.
pub fn stated_question(
    alloc: Global,
    word: QuestionWord,
    words: &[&[u8]],
) -> Result<Question, LineError>
    requires { AreAscii words.now }
    ensures { Gives OutOfMemory (λ question. question) result (stated_question word (texts words.now)) }
{
    if words.is_empty() {
        return lone_question(word);
    }
    match word {
        QuestionWord::Wave => wave_question(alloc, words),
        QuestionWord::Report => report_question(words),
        QuestionWord::Check => check_question(words),
        QuestionWord::Show => show_question(alloc, words),
        QuestionWord::Why => why_question(alloc, words),
        QuestionWord::Path => path_question(alloc, words),
        QuestionWord::Waits => waits_question(words),
        QuestionWord::Measure => measure_question(alloc, words),
        QuestionWord::Edits => edits_question(words),
        // no word can follow the others
        _ => Err(LineError::WordCount),
    }
}

/// The question that the words after `wave` state.
#[tactic(auto, using(crate::proofs::GivenLemmas::word_steps))]
fn wave_question(alloc: Global, words: &[&[u8]]) -> Result<Question, LineError>
    requires { AreAscii words.now }
    ensures { Gives OutOfMemory (λ question. question) result (stated_question Wave (texts words.now)) }
{
    match words {
        [wire] => Ok(Question::Wave(name_of(alloc, wire)?)),
        _ => Err(LineError::WordCount),
    }
}

/// The question that the words after `report` state.
fn report_question(words: &[&[u8]]) -> Result<Question, LineError>
    ensures { result ≡ stated_question Report (texts words.now) }
{
    let (from, to) = range_of(words)?;
    Ok(Question::Report { from, to })
}

/// The question that the words after `check` state.
fn check_question(words: &[&[u8]]) -> Result<Question, LineError>
    ensures { result ≡ stated_question Check (texts words.now) }
{
    let [first, others @ ..] = words else {
        return check_of(false, words);
    };
    if is_text(first, "brief") {
        return check_of(true, others);
    }
    check_of(false, words)
}

/// The question whether the netlist works, brief or not, in the range of times that the words state.
fn check_of(is_brief: bool, words: &[&[u8]]) -> Result<Question, LineError>
    ensures { result ≡ check_of is_brief (texts words.now) }
{
    let (from, to) = range_of(words)?;
    Ok(Question::Check { is_brief, from, to })
}

/// The first time and the end of the range of times that the words state. No words state the range that has all times.
fn range_of(words: &[&[u8]]) -> Result<(u64, u64), LineError>
    ensures { result ≡ range_of (texts words.now) }
{
    match words {
        [] => Ok((0, NO_END)),
        [from, to] => Ok((number_word(from)?, number_word(to)?)),
        _ => Err(LineError::WordCount),
    }
}

/// The question that the words after `show` state.
fn show_question(alloc: Global, words: &[&[u8]]) -> Result<Question, LineError>
    requires { AreAscii words.now }
    ensures { Gives OutOfMemory (λ question. question) result (stated_question Show (texts words.now)) }
{
    match words {
        [from, to, others @ ..] => picture_question(alloc, from, to, others),
        _ => Err(LineError::WordCount),
    }
}

/// The question about the picture between two times that the words behind them state.
#[tactic(auto, using(crate::proofs::GivenLemmas::wanting_given))]
fn picture_question(
    alloc: Global,
    from: &[u8],
    to: &[u8],
    others: &[&[u8]],
) -> Result<Question, LineError>
    requires { AreAscii others.now }
    ensures { Gives OutOfMemory (λ question. question) result (picture_question from.now to.now (texts others.now)) }
{
    let (wires, options) = wires_and_options(others);
    Ok(Question::Show {
        options: options_of(options)?,
        from: number_word(from)?,
        to: number_word(to)?,
        wires: wire_names(alloc, wires)?,
    })
}

/// The question that the words after `why` state.
#[tactic(auto, using(crate::proofs::GivenLemmas::word_steps))]
fn why_question(alloc: Global, words: &[&[u8]]) -> Result<Question, LineError>
    requires { AreAscii words.now }
    ensures { Gives OutOfMemory (λ question. question) result (stated_question Why (texts words.now)) }
{
    match words {
        [wire, time] => chain_question(alloc, wire, time, Ok(USUAL_STEPS)),
        [wire, time, steps] => chain_question(alloc, wire, time, count_word(steps, MAX_STEPS)),
        _ => Err(LineError::WordCount),
    }
}

/// The question that the words after `path` state.
#[tactic(auto, using(crate::proofs::GivenLemmas::word_steps))]
fn path_question(alloc: Global, words: &[&[u8]]) -> Result<Question, LineError>
    requires { AreAscii words.now }
    ensures { Gives OutOfMemory (λ question. question) result (stated_question Path (texts words.now)) }
{
    match words {
        [wire, time] => Ok(Question::Path {
            time: number_word(time)?,
            from: 0,
            wire: name_of(alloc, wire)?,
        }),
        [wire, time, from] => since_question(alloc, wire, time, from),
        _ => Err(LineError::WordCount),
    }
}

/// The question how the time of a chain from `from` on divides. `BadNumber` comes if `from` isn't below the time of the chain.
fn since_question(
    alloc: Global,
    wire: &[u8],
    time: &[u8],
    from: &[u8],
) -> Result<Question, LineError>
    requires { IsAscii wire.now }
    ensures { Gives OutOfMemory (λ question. question) result (since_question wire.now time.now from.now) }
{
    let time = number_word(time)?;
    let from = number_word(from)?;
    if from >= time {
        return Err(LineError::BadNumber);
    }
    Ok(Question::Path {
        time,
        from,
        wire: name_of(alloc, wire)?,
    })
}

/// The question that the words after `waits` state.
fn waits_question(words: &[&[u8]]) -> Result<Question, LineError>
    ensures { result ≡ stated_question Waits (texts words.now) }
{
    match words {
        [time] => Ok(Question::Waits {
            time: number_word(time)?,
        }),
        _ => Err(LineError::WordCount),
    }
}

/// The question that the words after `measure` state.
#[tactic(auto, using(crate::proofs::GivenLemmas::wanting_given, crate::proofs::lemmas::lexing::WordLemmas::rest_ascii))]
fn measure_question(alloc: Global, words: &[&[u8]]) -> Result<Question, LineError>
    requires { AreAscii words.now }
    ensures { Gives OutOfMemory (λ question. question) result (stated_question Measure (texts words.now)) }
{
    match words {
        [from, to, wires @ ..] => Ok(Question::Measure {
            from: number_word(from)?,
            to: number_word(to)?,
            wires: wire_names(alloc, wires)?,
        }),
        _ => Err(LineError::WordCount),
    }
}

/// The question that the words after `edits` state.
fn edits_question(words: &[&[u8]]) -> Result<Question, LineError>
    ensures { result ≡ stated_question Edits (texts words.now) }
{
    match words {
        [from] => Ok(Question::Edits {
            from: number_word(from)?,
        }),
        _ => Err(LineError::WordCount),
    }
}

/// The question that a first word states alone.
fn lone_question(word: QuestionWord) -> Result<Question, LineError>
    ensures { result ≡ stated_question word [] }
{
    match word {
        QuestionWord::Waves => Ok(Question::Waves),
        QuestionWord::Text => Ok(Question::Text),
        QuestionWord::Report => Ok(Question::Report {
            from: 0,
            to: NO_END,
        }),
        QuestionWord::Check => Ok(Question::Check {
            is_brief: false,
            from: 0,
            to: NO_END,
        }),
        QuestionWord::Steady => Ok(Question::Steady),
        QuestionWord::Dump => Ok(Question::Dump),
        QuestionWord::Work => Ok(Question::Work),
        QuestionWord::Graph => Ok(Question::Graph),
        QuestionWord::Verilog => Ok(Question::Verilog),
        QuestionWord::Version => Ok(Question::Version),
        QuestionWord::Wave | QuestionWord::Show | QuestionWord::Why | QuestionWord::Path => {
            Err(LineError::WordCount)
        }
        QuestionWord::Waits | QuestionWord::Measure | QuestionWord::Edits => {
            Err(LineError::WordCount)
        }
    }
}

/// The words as names of wires, in order. `AllocError` comes if memory runs out.
#[tactic(auto, using(crate::proofs::PartLemmas::wire_names_steps))]
fn wire_names(alloc: Global, words: &[&[u8]]) -> Result<WireNames, AllocError>
    requires { AreAscii words.now }
    ensures { IfOk result (λ wires. wires ≡ texts words.now) }
{
    let mut names = Vec::new(alloc);
    for word in words {
        let name = name_of(alloc, word)?;
        names.push(name)?;
    }
    Ok(WireNames::new(names))
}

/// The question about a wire, a time and a number of steps, which is read after the time.
fn chain_question(
    alloc: Global,
    wire: &[u8],
    time: &[u8],
    steps: Result<u32, LineError>,
) -> Result<Question, LineError>
    requires { IsAscii wire.now }
    ensures { Gives OutOfMemory (λ question. question) result (chain_question wire.now time.now steps) }
{
    Ok(Question::Why {
        time: number_word(time)?,
        steps: steps?,
        wire: name_of(alloc, wire)?,
    })
}
