//! The accepted edits as lines.
ghost use Rattle.std.specs.Prelude.{◌≡◌, ◌+◌, ◌<◌};
ghost use Rattle.mp_commands.specs.answers.Names.{slice_get, Writes};
ghost use Rattle.mp_version.specs.Limits.{max_edits};
ghost use Rattle.mp_commands.specs.answers.EditAnswers.{edits_from, numbered_at};

use mp_streams::{Failed, Out, Sink, Text};
use mp_text::EditText;
use mp_version::History;

/// Writes a line `N EDIT` for each edit from this place on, the first place being 0.
#[tactic(auto, using(crate::proofs::lemmas::answers::EditAnswerLemmas::lines_left_steps))]
pub(crate) fn put_edits<T: Sink>(
    out: &mut Out<T>,
    edits: &History,
    first: u32,
) -> Result<(), Failed>
    ensures { Writes result out.old out.new (edits_from edits.now first) }
{
    for place in first..edits.len() {
        put_edit_at(out, edits, place)?;
    }
    Ok(())
}

/// Writes the line of the edit in a place; nothing if there is none.
fn put_edit_at<T: Sink>(out: &mut Out<T>, edits: &History, place: u32) -> Result<(), Failed>
    requires { place < max_edits }
    ensures { Writes result out.old out.new (numbered_at (place + 1) (slice_get edits.now place)) }
{
    match edits.get(place) {
        Some(edit) => (place + 1, " ", EditText { edit }, "\n").put_to(out),
        None => Ok(()),
    }
}
