//! The line of a script that makes an edit.
ghost use Rattle.std.specs.Prelude.{◌≡◌};
ghost use Rattle.std.specs.List.{flat_map};
ghost use Rattle.mp_streams.specs.Outgoing.{Writes};
ghost use Rattle.mp_text.specs.edit_lines.EditLines.{edit_text, batch_text, behind_text};

use crate::edit_lines::single_text::SingleText;
use mp_records::{Edit, SingleEdit};
use mp_streams::{Failed, Out, Sink, Text};

/// An edit as the line of a script that makes it, without its line feed.
#[derive(Clone, Copy)]
pub struct EditText<'a> {
    pub edit: &'a Edit,
}

impl<'a> Text for EditText<'a> {
    ghost text = { λ line. edit_text line.edit.now };

    fn put_to<S: Sink>(&self, out: &mut Out<S>) -> Result<(), Failed> {
        match self.edit {
            Edit::Single(edit) => SingleText { edit }.put_to(out),
            Edit::Batch(batch) => put_batch(out, batch.as_slice()),
        }
    }
}

/// Writes the edits of a batch.
fn put_batch<S: Sink>(out: &mut Out<S>, edits: &[SingleEdit]) -> Result<(), Failed>
    ensures { Writes result out.old out.new (batch_text edits.now) }
{
    match edits {
        [] => "batch".put_to(out),
        [first, others @ ..] => {
            let first = ("batch ", SingleText { edit: first });
            (first, Others { edits: others }).put_to(out)
        }
    }
}

/// The edits of a batch after its first one, each after a `;`.
#[derive(Clone, Copy)]
struct Others<'a> {
    edits: &'a [SingleEdit],
}

impl<'a> Text for Others<'a> {
    ghost text = { λ others. flat_map behind_text others.edits.now };

    fn put_to<S: Sink>(&self, out: &mut Out<S>) -> Result<(), Failed> {
        for edit in self.edits {
            (" ; ", SingleText { edit }).put_to(out)?;
        }
        Ok(())
    }
}
