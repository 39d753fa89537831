//! Figures after the name of a wire or a bundle.
ghost use Rattle.std.specs.Prelude.{◌≡◌};
ghost use Rattle.mp_streams.specs.Outgoing.{Writes};
ghost use Rattle.mp_questions.specs.timing.Measures.{figures_line};

use crate::timing::extremes::Extremes;
use mp_streams::{Failed, Out, Sink, Text};
use mp_wave::WaveChanges;

/// The times of the first and of the last event, if there is one.
#[derive(Clone, Copy)]
pub(crate) struct FirstAndLast<'a> {
    pub(crate) events: WaveChanges<'a>,
}

impl<'a> Text for FirstAndLast<'a> {
    ghost use Rattle.mp_wave.specs.WaveChanges.{changes_in};
    ghost use Rattle.mp_questions.specs.timing.Events.{times_of};
    ghost use Rattle.mp_questions.specs.timing.Measures.{ends_text};

    ghost text = { λ ends. ends_text (times_of (changes_in ends.events)) };

    fn put_to<S: Sink>(&self, out: &mut Out<S>) -> Result<(), Failed> {
        match (self.events.first(), self.events.last()) {
            (Some(first), Some(last)) => (" ", first.0, " ", last.0).put_to(out),
            _ => Ok(()),
        }
    }
}

/// The least and the greatest of some numbers, after a word; nothing if there are no numbers.
#[derive(Clone, Copy)]
pub(crate) struct LeastAndMost<'a> {
    pub(crate) word: &'a str,
    pub(crate) found: Option<Extremes>,
}

impl<'a> Text for LeastAndMost<'a> {
    ghost use Rattle.mp_questions.specs.timing.Measures.{extremes_text};

    ghost text = { λ figure. extremes_text figure.word.now figure.found };

    fn put_to<S: Sink>(&self, out: &mut Out<S>) -> Result<(), Failed> {
        match self.found {
            Some(found) => (self.word, " ", found.least, (" ", found.most)).put_to(out),
            None => Ok(()),
        }
    }
}

/// The least of some numbers, after a word; nothing if there are no numbers.
#[derive(Clone, Copy)]
pub(crate) struct Least<'a> {
    pub(crate) word: &'a str,
    pub(crate) found: Option<Extremes>,
}

impl<'a> Text for Least<'a> {
    ghost use Rattle.mp_questions.specs.timing.Measures.{least_text};

    ghost text = { λ figure. least_text figure.word.now figure.found };

    fn put_to<S: Sink>(&self, out: &mut Out<S>) -> Result<(), Failed> {
        match self.found {
            Some(found) => (self.word, " ", found.least).put_to(out),
            None => Ok(()),
        }
    }
}

/// The greatest of some numbers, after a word; nothing if there are no numbers.
#[derive(Clone, Copy)]
pub(crate) struct Most<'a> {
    pub(crate) word: &'a str,
    pub(crate) found: Option<Extremes>,
}

impl<'a> Text for Most<'a> {
    ghost use Rattle.mp_questions.specs.timing.Measures.{most_text};

    ghost text = { λ figure. most_text figure.word.now figure.found };

    fn put_to<S: Sink>(&self, out: &mut Out<S>) -> Result<(), Failed> {
        match self.found {
            Some(found) => (self.word, " ", found.most).put_to(out),
            None => Ok(()),
        }
    }
}

/// Writes the line of a wire or a bundle: its name, a count, and figures.
pub(crate) fn put_figures<S: Sink, T: Text>(
    out: &mut Out<S>,
    kind: &str,
    name: &str,
    count: usize,
    figures: &T,
) -> Result<(), Failed>
    ensures { Writes result out.old out.new (figures_line kind.now name.now count (T.text figures.now)) }
{
    (kind, name, " ", (count as u64, figures, "\n")).put_to(out)
}
