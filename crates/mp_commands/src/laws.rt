//! What scripts come to.
ghost use Rattle.mp_commands.specs.MadeAgain.{IsMadeAgain};

use mp_netlist::laws::edits_keep_netlists;
use mp_text::edit_lines::laws::lines_say_accepted_edits;

/// A script of the lines of a session's accepted edits makes the session again: the netlist and the edits.
pub fn sessions_are_made_again()
    ensures { IsMadeAgain }
{
    edits_keep_netlists();
    lines_say_accepted_edits();
}
