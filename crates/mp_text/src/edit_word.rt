//! The first words of statements that are edits.
use crate::lexing::is_text;

/// The first word of an edit that occurs in texts and in scripts.
#[derive(Clone, Copy)]
pub enum EditWord {
    /// `wire`
    Wire,
    /// `module`
    Module,
    /// `stim`
    Stimulus,
    /// `bundle`
    Bundle,
}

impl EditWord {
    ghost use Rattle.std.specs.Prelude.{◌≡◌};
    ghost use Rattle.mp_text.specs.Clauses.{edit_word, statement_takes};

    /// The first word that this text is; `None` if it isn't one.
    pub fn from_word(word: &[u8]) -> Option<EditWord>
        ensures { result ≡ edit_word word.now }
    {
        match word {
            _ if is_text(word, "wire") => Some(EditWord::Wire),
            _ if is_text(word, "module") => Some(EditWord::Module),
            _ if is_text(word, "stim") => Some(EditWord::Stimulus),
            _ if is_text(word, "bundle") => Some(EditWord::Bundle),
            _ => None,
        }
    }

    /// Whether this number of words can follow it.
    pub fn takes(self, count: usize) -> bool
        ensures { result ≡ statement_takes self count }
    {
        match self {
            EditWord::Wire => count == 3,
            EditWord::Module => count >= 6,
            EditWord::Stimulus => count >= 1,
            EditWord::Bundle => count == 5,
        }
    }
}
