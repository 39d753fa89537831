//! The first words of edits of one thing.
use crate::edit_word::EditWord;
use crate::lexing::is_text;

/// The first word of an edit of one thing, as a line or in a batch.
#[derive(Clone, Copy)]
pub enum SingleWord {
    /// The first word of an edit that occurs in texts too.
    Stated(EditWord),
    /// `remove`
    Remove,
    /// `input`
    Input,
    /// `output`
    Output,
    /// `indelay`
    InputDelay,
    /// `delay`
    Delay,
    /// `clear`
    Clear,
}

impl SingleWord {
    ghost use Rattle.std.specs.Prelude.{◌≡◌};
    ghost use Rattle.mp_text.specs.Clauses.{single_word, single_takes};

    /// The first word that this text is; `None` if it isn't one.
    pub fn from_word(word: &[u8]) -> Option<SingleWord>
        ensures { result ≡ single_word word.now }
    {
        match word {
            _ if is_text(word, "remove") => Some(SingleWord::Remove),
            _ if is_text(word, "input") => Some(SingleWord::Input),
            _ if is_text(word, "output") => Some(SingleWord::Output),
            _ if is_text(word, "indelay") => Some(SingleWord::InputDelay),
            _ if is_text(word, "delay") => Some(SingleWord::Delay),
            _ if is_text(word, "clear") => Some(SingleWord::Clear),
            _ => Some(SingleWord::Stated(EditWord::from_word(word)?)),
        }
    }

    /// Whether this number of words can follow it.
    pub fn takes(self, count: usize) -> bool
        ensures { result ≡ single_takes self count }
    {
        match self {
            SingleWord::Stated(word) => word.takes(count),
            SingleWord::Remove => count == 2,
            SingleWord::Input | SingleWord::Output | SingleWord::InputDelay | SingleWord::Delay =>
                count == 3,
            SingleWord::Clear => count == 1,
        }
    }
}
