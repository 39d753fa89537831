//! Laws of the lines of edits.
ghost use Rattle.mp_text.specs.edit_lines.ReadBack.{IsReadAsWritten, AreReadAsWritten, AcceptedAreRead, AreLinesOfEdits};

use mp_netlist::laws::edits_keep_netlists;

/// The line of an edit of one thing is read as that edit, if its names are valid and its numbers are below 2^64.
pub fn single_edits_are_read()
    ensures { IsReadAsWritten }
{}

/// The line of a batch of such edits, at least one, is read as that batch.
pub fn edits_are_read()
    ensures { AreReadAsWritten }
{}

/// The line of an edit that a netlist accepts is read as that edit.
pub fn accepted_edits_are_read()
    ensures { AcceptedAreRead }
{
    edits_keep_netlists();
}

/// The lines of edits that are accepted one after the other are read as exactly these edits, in order.
pub fn lines_say_accepted_edits()
    ensures { AreLinesOfEdits }
{
    edits_keep_netlists();
}
