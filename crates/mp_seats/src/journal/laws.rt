//! What a journal says.
ghost use Rattle.mp_seats.specs.journal.Scripts.{JournalsAreScripts};

use mp_text::edit_lines::laws::lines_say_accepted_edits;

/// The lines of edits that are accepted one after the other are a script of exactly these edits, in order. So a journal makes its session again.
pub fn journals_are_scripts()
    ensures { JournalsAreScripts }
{
    lines_say_accepted_edits();
}
