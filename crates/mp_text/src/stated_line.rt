//! Reading a script's line.
ghost use Rattle.std.specs.Prelude.{◌≡◌};
ghost use Rattle.mp_text.specs.Clauses.{IfErr, OutOfMemory, Gives, texts, AreAscii, HasForm, batch_of, single_edit, stated_question, line_at, stated_line, single_line, batch_line, question_line};

use crate::batch_line::batch;
use crate::lexing::{LineError, first_word, is_plain, word_count, words};
use crate::line_word::LineWord;
use crate::script_edit::single_edit;
use crate::script_line::Line;
use crate::stated_question::stated_question;
use mp_netlist::Edit;
use std::alloc::Global;

/// Reads a line of a script, without its line feed: an edit, a batch of edits, or a question; or nothing, if there are no words.
///
/// The error is its first fault: a byte that isn't allowed, even in a comment (`NotAscii`); a first word that begins no line (`UnknownStatement`);
/// the number or shape of the words (`WordCount`); a kind that doesn't exist (`UnknownStatement`); a word that isn't the number or the pair that it
/// should be (`BadNumber`). The parts of a batch are read in turn. Whether a netlist accepts the edit isn't checked.
///
/// `OutOfMemory` comes if memory runs out, but only for a line whose bytes are allowed, whose first word begins lines, and whose number of words is
/// right.
#[tactic(auto, using(crate::proofs::LineStartLemmas::read_line_steps))]
pub fn read_line(alloc: Global, line: &[u8]) -> Result<Line, LineError>
    ensures read { Gives OutOfMemory (λ line. line) result (line_at line.now) }
    ensures wanting { IfErr result (λ error. error ≡ OutOfMemory → HasForm line.now) }
{
    if !is_plain(line) {
        return Err(LineError::NotAscii);
    }
    let Some(word) = first_word(line) else {
        return Ok(Line::Empty);
    };
    let Some(first) = LineWord::from_word(word) else {
        return Err(LineError::UnknownStatement);
    };
    if !first.takes(word_count(line) - 1) {
        return Err(LineError::WordCount);
    }
    let words = words(alloc, line)?;
    stated_line(alloc, first, &words.as_slice()[1..])
}

/// The line that a first word and the words after it state.
fn stated_line(alloc: Global, first: LineWord, words: &[&[u8]]) -> Result<Line, LineError>
    requires { AreAscii words.now }
    ensures { Gives OutOfMemory (λ line. line) result (stated_line first (texts words.now)) }
{
    match first {
        LineWord::Single(word) => Ok(Line::Change(Edit::Single(single_edit(alloc, word, words)?))),
        LineWord::Batch => Ok(Line::Change(Edit::Batch(batch(alloc, words)?))),
        LineWord::Question(word) => Ok(Line::Ask(stated_question(alloc, word, words)?)),
    }
}
