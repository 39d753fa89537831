//! The explanation of a code or a kind.
ghost use Rattle.mp_streams.specs.Outgoing.{Writes};
ghost use Rattle.mp_request.specs.explain.Explanations.{entry_text};

use crate::explain::topic::Topic;
use mp_streams::{Failed, Out, Sink, Text};

/// The explanation of a code or of a kind of module.
///
/// The text has sections: a heading indented by two blanks, and lines indented by four. For a code these are its meaning (a line for each case, which
/// continues at six blanks), an example with its answer, and a remedy. For a kind they are its parameters, its ports, its table, its findings, and an
/// example.
#[derive(Clone, Copy)]
pub struct Entry {
    pub subject: Topic,
    /// The text after the title, from the line feed on.
    pub text: &'static str,
}

/// The title and the text.
impl Text for Entry {
    ghost text = { λ entry. entry_text entry };

    fn put_to<S: Sink>(&self, out: &mut Out<S>) -> Result<(), Failed> {
        (self.subject, self.text).put_to(out)
    }
}
