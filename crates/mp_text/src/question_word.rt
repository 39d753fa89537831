//! The first words of questions.
use crate::lexing::is_text;

/// The first word of a question.
#[derive(Clone, Copy)]
pub enum QuestionWord {
    /// `wave`
    Wave,
    /// `waves`
    Waves,
    /// `text`
    Text,
    /// `report`
    Report,
    /// `check`
    Check,
    /// `steady`
    Steady,
    /// `dump`
    Dump,
    /// `work`
    Work,
    /// `show`
    Show,
    /// `why`
    Why,
    /// `path`
    Path,
    /// `waits`
    Waits,
    /// `measure`
    Measure,
    /// `graph`
    Graph,
    /// `verilog`
    Verilog,
    /// `version`
    Version,
    /// `edits`
    Edits,
}

impl QuestionWord {
    ghost use Rattle.std.specs.Prelude.{◌≡◌};
    ghost use Rattle.mp_text.specs.Clauses.{lone_word, question_word, question_takes};

    /// The first word that this text is; `None` if it isn't one.
    pub fn from_word(word: &[u8]) -> Option<QuestionWord>
        ensures { result ≡ question_word word.now }
    {
        match word {
            _ if is_text(word, "wave") => Some(QuestionWord::Wave),
            _ if is_text(word, "report") => Some(QuestionWord::Report),
            _ if is_text(word, "check") => Some(QuestionWord::Check),
            _ if is_text(word, "show") => Some(QuestionWord::Show),
            _ if is_text(word, "why") => Some(QuestionWord::Why),
            _ if is_text(word, "path") => Some(QuestionWord::Path),
            _ if is_text(word, "waits") => Some(QuestionWord::Waits),
            _ if is_text(word, "measure") => Some(QuestionWord::Measure),
            _ if is_text(word, "edits") => Some(QuestionWord::Edits),
            _ => QuestionWord::from_lone_word(word),
        }
    }

    /// The first word that this text is, if no word can follow it; `None` if it isn't such a word.
    fn from_lone_word(word: &[u8]) -> Option<QuestionWord>
        ensures { result ≡ lone_word word.now }
    {
        match word {
            _ if is_text(word, "waves") => Some(QuestionWord::Waves),
            _ if is_text(word, "text") => Some(QuestionWord::Text),
            _ if is_text(word, "steady") => Some(QuestionWord::Steady),
            _ if is_text(word, "dump") => Some(QuestionWord::Dump),
            _ if is_text(word, "work") => Some(QuestionWord::Work),
            _ if is_text(word, "graph") => Some(QuestionWord::Graph),
            _ if is_text(word, "verilog") => Some(QuestionWord::Verilog),
            _ if is_text(word, "version") => Some(QuestionWord::Version),
            _ => None,
        }
    }

    /// Whether this number of words can follow it.
    pub fn takes(self, count: usize) -> bool
        ensures { result ≡ question_takes self count }
    {
        match self {
            QuestionWord::Wave | QuestionWord::Waits | QuestionWord::Edits => count == 1,
            QuestionWord::Report => count == 0 || count == 2,
            QuestionWord::Check => count <= 3,
            QuestionWord::Why | QuestionWord::Path => count == 2 || count == 3,
            QuestionWord::Show | QuestionWord::Measure => count >= 2,
            // no word can follow the others
            _ => count == 0,
        }
    }
}
