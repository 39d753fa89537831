//! The word at fault in a line whose edit is refused.
ghost use Rattle.std.specs.Prelude.{◌≡◌, ◌<◌, IfOk, length};
ghost use Rattle.mp_request.specs.faults.EditPlaces.{wire_place, bundle_place, is_good, good_changes, stimulus_place, edit_place, edit_in, edit_at, refusal_place};

use crate::faults::module_places::module_place;
use crate::faults::wires::{stands, width_named};
use crate::faults::word_place::WordPlace;
use mp_modules::fits_width;
use mp_netlist::{Changes, Edit, EditError, Name, Netlist, NewBundle, SingleEdit};
use mp_text::{Line, LineError, read_line};
use std::alloc::{AllocError, Global};

/// The word at fault in a line whose edit this netlist refuses. `AllocError` comes if memory runs out.
pub(crate) fn refusal_place(
    alloc: Global,
    netlist: &Option<Netlist>,
    line: &[u8],
    error: EditError,
) -> Result<WordPlace, AllocError>
    ensures { IfOk result (λ place. place ≡ refusal_place netlist.now (edit_at line.now) error) }
{
    let edit = edit_at(alloc, line)?;
    let place = place_in_edit(netlist, &edit, error);
    // The edit is dropped by a call: at the end of the scope, the drop of each of its parts would stand here.
    drop(edit);
    Ok(place)
}

/// The word at fault in the line of this edit, or its first word if there is no netlist or no edit.
fn place_in_edit(
    netlist: &Option<Netlist>,
    edit: &Option<SingleEdit>,
    error: EditError,
) -> WordPlace
    ensures { result ≡ refusal_place netlist.now edit.now error }
{
    let (Some(netlist), Some(edit)) = (netlist, edit) else {
        return WordPlace::Word(0);
    };
    edit_place(netlist, edit, error)
}

/// The edit that a line states; `None` if it states none.
fn edit_at(alloc: Global, line: &[u8]) -> Result<Option<SingleEdit>, AllocError>
    ensures { IfOk result (λ edit. edit ≡ edit_at line.now) }
{
    match read_line(alloc, line) {
        Ok(line) => Ok(edit_in(line)),
        Err(LineError::OutOfMemory) => Err(AllocError),
        Err(_) => Ok(None),
    }
}

/// The edit of one thing in a line; `None` if it has none.
fn edit_in(line: Line) -> Option<SingleEdit>
    ensures { result ≡ edit_in (Ok line) }
{
    match line {
        Line::Change(Edit::Single(edit)) => Some(edit),
        other => {
            drop(other);
            None
        }
    }
}

/// The word at fault in the line of an edit that is refused.
fn edit_place(netlist: &Netlist, edit: &SingleEdit, error: EditError) -> WordPlace
    ensures { result ≡ edit_place netlist.now edit.now error }
{
    match edit {
        SingleEdit::AddWire { .. } => wire_place(error),
        SingleEdit::AddModule(new) => module_place(netlist, new.get(), error),
        SingleEdit::AddBundle(new) => bundle_place(netlist, new.get(), error),
        SingleEdit::SetStimulus { wire, changes } => stimulus_place(netlist, wire, changes, error),
        _ => WordPlace::Word(0),
    }
}

fn wire_place(error: EditError) -> WordPlace
    ensures { result ≡ wire_place error }
{
    match error {
        EditError::BadName | EditError::NameTaken => WordPlace::Word(1),
        EditError::BadWidth => WordPlace::Word(2),
        EditError::BadLevel => WordPlace::Word(3),
        _ => WordPlace::Word(0),
    }
}

fn bundle_place(netlist: &Netlist, new: &NewBundle, error: EditError) -> WordPlace
    ensures { result ≡ bundle_place netlist.now new.now error }
{
    match error {
        EditError::BadName | EditError::NameTaken => WordPlace::Word(1),
        EditError::NoSuchWire if !stands(netlist, &new.request) => WordPlace::Word(2),
        EditError::NoSuchWire if !stands(netlist, &new.acknowledge) => WordPlace::Word(3),
        EditError::NoSuchWire => WordPlace::Word(4),
        EditError::WidthMismatch if width_named(netlist, &new.request) == 1 => WordPlace::Word(3),
        EditError::WidthMismatch => WordPlace::Word(2),
        EditError::BadParam => WordPlace::Word(5),
        _ => WordPlace::Word(0),
    }
}

fn stimulus_place(netlist: &Netlist, wire: &Name, changes: &Changes, error: EditError) -> WordPlace
    ensures { result ≡ stimulus_place netlist.now wire.now changes.now error }
{
    match error {
        EditError::NoSuchWire | EditError::AlreadyDriven => WordPlace::Word(1),
        EditError::BadStimulus => {
            let width = u64::from(width_named(netlist, wire));
            let horizon = u64::from(netlist.horizon());
            WordPlace::Word(2 + good_changes(horizon, width, changes.as_slice()))
        }
        _ => WordPlace::Word(0),
    }
}

/// The number of changes before the first one that isn't good: its time isn't above the one before and below the horizon, or its value doesn't fit.
fn good_changes(horizon: u64, width: u64, changes: &[(u64, u64)]) -> usize
    ensures value { result ≡ good_changes horizon width 0 changes.now }
    ensures small { result < 9223372036854775808 }
{
    let mut before = 0;
    for (place, &(time, value)) in changes.iter().enumerate() {
        if !is_good(horizon, width, before, (time, value)) {
            return place;
        }
        before = time;
    }
    changes.len()
}

/// Whether the time of a change is above the one before and below the horizon, and its value fits into the width.
fn is_good(horizon: u64, width: u64, before: u64, change: (u64, u64)) -> bool
    ensures { result ≡ is_good horizon width before change }
{
    before < change.0 && change.0 < horizon && fits_width(change.1, width)
}
