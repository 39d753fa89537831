//! The first words of script lines.
use crate::lexing::is_text;
use crate::question_word::QuestionWord;
use crate::single_word::SingleWord;

/// The first word of a script's line.
#[derive(Clone, Copy)]
pub enum LineWord {
    /// The first word of an edit of one thing.
    Single(SingleWord),
    /// `batch`
    Batch,
    /// The first word of a question.
    Question(QuestionWord),
}

impl LineWord {
    ghost use Rattle.std.specs.Prelude.{◌≡◌};
    ghost use Rattle.mp_text.specs.Clauses.{line_word, takes};

    /// The first word that this text is; `None` if it isn't one.
    pub fn from_word(word: &[u8]) -> Option<LineWord>
        ensures { result ≡ line_word word.now }
    {
        if is_text(word, "batch") {
            Some(LineWord::Batch)
        } else if let Some(question) = QuestionWord::from_word(word) {
            Some(LineWord::Question(question))
        } else {
            Some(LineWord::Single(SingleWord::from_word(word)?))
        }
    }

    /// Whether this number of words can follow it.
    pub fn takes(self, count: usize) -> bool
        ensures { result ≡ takes self count }
    {
        match self {
            LineWord::Single(word) => word.takes(count),
            LineWord::Batch => count >= 1,
            LineWord::Question(word) => word.takes(count),
        }
    }
}
