//! The accepted edits of a live desk as lines, with who made them.
ghost use Rattle.std.specs.Prelude.{◌≡◌, ◌+◌, ◌<◌, slice_get};
ghost use Rattle.mp_version.specs.Limits.{max_edits};
ghost use Rattle.mp_streams.specs.Outgoing.{Writes};
ghost use Rattle.mp_commands.specs.live.SignedEdits.{author_text, author_at, signed_at, signed_from, signed_text};

use crate::answers::put_unread;
use mp_streams::{Failed, Out, Sink, Text};
use mp_text::{EditText, LineError};
use mp_version::{History, Version};

/// Who made an edit, as a comment behind its line: nothing for 0, where nobody at the desk made it.
#[derive(Drop)]
struct Author {
    number: u64,
}

impl Text for Author {
    ghost use Rattle.mp_commands.specs.live.SignedEdits.{author_text};

    ghost text = { λ author. author_text author.number };

    fn put_to<S: Sink>(&self, out: &mut Out<S>) -> Result<(), Failed> {
        if self.number == 0 {
            Ok(())
        } else {
            (" # designer-", self.number).put_to(out)
        }
    }
}

/// Writes the accepted edits from a number on, each with who made it, or that this is no number of an edit.
pub(crate) fn put_signed<T: Sink>(
    out: &mut Out<T>,
    version: &Version,
    authors: &[usize],
    from: u64,
) -> Result<(), Failed>
    ensures { Writes result out.old out.new (signed_text authors.now version.now.edits from) }
{
    if from < 1 || from > u64::from(version.number()) + 1 {
        return put_unread(out, LineError::BadNumber);
    }
    put_signed_from(out, version.edits(), authors, (from - 1) as u32)
}

/// Writes a line for each edit from this place on, the first place being 0.
#[tactic(auto, using(crate::proofs::lemmas::live::SignedEditLemmas::signed_left_steps))]
fn put_signed_from<T: Sink>(
    out: &mut Out<T>,
    edits: &History,
    authors: &[usize],
    first: u32,
) -> Result<(), Failed>
    ensures { Writes result out.old out.new (signed_from authors.now edits.now first) }
{
    for place in first..edits.len() {
        put_signed_at(out, edits, authors, place)?;
    }
    Ok(())
}

/// Writes the line of the edit in a place; nothing if there is none.
fn put_signed_at<T: Sink>(
    out: &mut Out<T>,
    edits: &History,
    authors: &[usize],
    place: u32,
) -> Result<(), Failed>
    requires { place < max_edits }
    ensures { Writes result out.old out.new (signed_at authors.now (place + 1) (slice_get edits.now place)) }
{
    match edits.get(place) {
        Some(edit) => {
            let author = author_in(authors, place);
            (place + 1, " ", (EditText { edit }, author), "\n").put_to(out)
        }
        None => Ok(()),
    }
}

/// Who made the edit in a place.
fn author_in(authors: &[usize], place: u32) -> Author
    ensures { author_text result.number ≡ author_at (slice_get authors.now place) }
{
    match authors.get(place as usize) {
        Some(author) => Author {
            number: *author as u64,
        },
        None => Author { number: 0 },
    }
}
