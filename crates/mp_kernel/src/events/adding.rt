//! Adds events to the states of modules of width 1.
ghost use Rattle.std.specs.Prelude.{◌≡◌, ◌<◌, ◌∷◌, [], OnOk, All, length};
ghost use Rattle.mp_kernel.specs.events.Adding.{IsAdding, AreAdded};
ghost use Rattle.mp_kernel.specs.events.Toggling.{entries_from};

use crate::events::batches::{batch_end, is_large};
use crate::events::fanout::Fanout;
use crate::events::fanout_entry::FanoutEntry;
use mp_modules::AutomatonState;
use std::alloc::AllocError;

/// Adds an event of an input that has had none in this unit. With its first event a module becomes due.
#[inline(always)]
pub fn add_event(
    states: &mut Vec<AutomatonState>,
    due: &mut Vec<u32>,
    entry: FanoutEntry,
) -> Result<(), AllocError>
    requires { IsAdding states.old.items due.old.items (entry ∷ []) }
    ensures added { OnOk result (AreAdded states.old.items states.new.items (entry ∷ [])) }
    ensures adding { OnOk result (IsAdding states.new.items due.new.items []) }
    ensures places { OnOk result (length states.new.items ≡ length states.old.items) }
{
    let module = entry.module as usize;
    if states[module].add_event(entry.event) {
        due.push(entry.module)?;
    }
    Ok(())
}

/// Adds events of these inputs, each of which has had none in this unit.
#[inline(always)]
pub(crate) fn add_events(
    states: &mut Vec<AutomatonState>,
    due: &mut Vec<u32>,
    entries: &[FanoutEntry],
) -> Result<(), AllocError>
    requires { IsAdding states.old.items due.old.items entries.now }
    ensures added { OnOk result (AreAdded states.old.items states.new.items entries.now) }
    ensures adding { OnOk result (IsAdding states.new.items due.new.items []) }
    ensures places { OnOk result (length states.new.items ≡ length states.old.items) }
{
    for entry in entries {
        add_event(states, due, *entry)?;
    }
    Ok(())
}

/// Adds events of the inputs that read these wires, or delayed copies of wires, each of which is listed once.
#[inline(always)]
pub fn add_fanout_events(
    rows: &Fanout,
    states: &mut Vec<AutomatonState>,
    due: &mut Vec<u32>,
    wires: &[u32],
) -> Result<(), AllocError>
    requires rows { All (λ w. w < length rows.now) wires.now }
    requires adding { IsAdding states.old.items due.old.items (entries_from rows.now wires.now) }
    ensures added { OnOk result (AreAdded states.old.items states.new.items (entries_from rows.now wires.now)) }
    ensures adding { OnOk result (IsAdding states.new.items due.new.items []) }
    ensures places { OnOk result (length states.new.items ≡ length states.old.items) }
{
    let is_large = is_large(states.len());
    let mut from = 0;
    while from < wires.len() {
        let to = batch_end(wires, from, is_large);
        if is_large {
            due.reserve(rows.count_read_once(&wires[from..to]))?;
        }
        for place in from..to {
            add_events(states, due, rows.of(wires[place]))?;
        }
        from = to;
    }
    Ok(())
}
