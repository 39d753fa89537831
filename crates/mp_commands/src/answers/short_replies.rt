//! Replies of one line: to edits, and to lines that aren't read.
ghost use Rattle.mp_commands.specs.answers.Names.{Writes};
ghost use Rattle.mp_commands.specs.answers.ShortReplies.{accepted_text, unread_text, refused_text, refusal_text, coded_text, too_long_text};

use mp_netlist::EditError;
use mp_streams::{Failed, Out, Sink, Text};
use mp_text::LineError;

/// Writes that an edit is accepted, and how many edits were accepted so far, this one included.
pub fn put_accepted<T: Sink>(out: &mut Out<T>, accepted: u32) -> Result<(), Failed>
    ensures { Writes result out.old out.new (accepted_text accepted) }
{
    ("accepted ", accepted, "\n").put_to(out)
}

/// Writes why an edit is refused; of a batch, the place of the edit and its own refusal.
pub fn put_refused<T: Sink>(out: &mut Out<T>, error: EditError) -> Result<(), Failed>
    ensures { Writes result out.old out.new (refused_text error) }
{
    match error {
        EditError::InBatch { place, number } => {
            put_refusal(out, &("refused 21 InBatch ", (place, " ")), number)
        }
        _ => put_refusal(out, &"refused ", error.number()),
    }
}

/// Writes a line of some words with the number and name of a refusal.
fn put_refusal<T: Sink, W: Text>(out: &mut Out<T>, words: &W, number: u32) -> Result<(), Failed>
    ensures { Writes result out.old out.new (refusal_text (W.text words.now) number) }
{
    let name = EditError::name_of(number).unwrap_or("");
    put_coded(out, words, number, name)
}

/// Writes why a line is not read.
pub fn put_unread<T: Sink>(out: &mut Out<T>, error: LineError) -> Result<(), Failed>
    ensures { Writes result out.old out.new (unread_text error) }
{
    put_coded(out, &"unread ", error.number(), error.name())
}

/// Writes that a line is too long to be read.
pub fn put_too_long<T: Sink>(out: &mut Out<T>) -> Result<(), Failed>
    ensures { Writes result out.old out.new too_long_text }
{
    ("unread 8 TooLong", "\n").put_to(out)
}

/// Writes a line of some words, a number and a name.
pub fn put_coded<T: Sink, W: Text>(
    out: &mut Out<T>,
    words: &W,
    number: u32,
    name: &str,
) -> Result<(), Failed>
    ensures { Writes result out.old out.new (coded_text (W.text words.now) number name.now) }
{
    (words, (number, " ", name), "\n").put_to(out)
}
