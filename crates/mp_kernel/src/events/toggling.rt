//! Toggles wires of width 1.
ghost use Rattle.std.specs.Prelude.{◌≡◌, ◌<◌, [], OnOk, All, length};
ghost use Rattle.mp_kernel.specs.events.Adding.{IsAdding, AreAdded};
ghost use Rattle.mp_kernel.specs.events.Toggling.{row_at, entries_from, CanToggle, AreToggled};

use crate::events::adding::add_fanout_events;
use crate::events::fanout::Fanout;
use crate::events::wave_table::WaveTable;
use mp_modules::AutomatonState;
use std::alloc::AllocError;

/// Toggles these wires at a time, each once, and adds events to the inputs that read them. A module with an event becomes due.
#[inline(always)]
pub fn toggle_wires(
    rows: &Fanout,
    states: &mut Vec<AutomatonState>,
    due: &mut Vec<u32>,
    waves: &mut WaveTable,
    wires: &[u32],
    time: u32,
) -> Result<(), AllocError>
    requires rows { All (λ w. w < length rows.now) wires.now }
    requires waves { All (λ w. w < length waves.old) wires.now }
    requires over { CanToggle waves.old wires.now time }
    requires adding { IsAdding states.old.items due.old.items (entries_from rows.now wires.now) }
    ensures added { OnOk result (AreAdded states.old.items states.new.items (entries_from rows.now wires.now)) }
    ensures adding { OnOk result (IsAdding states.new.items due.new.items []) }
    ensures places { OnOk result (length states.new.items ≡ length states.old.items) }
    ensures waves { OnOk result (AreToggled waves.old waves.new wires.now time) }
{
    waves.toggle(wires, time)?;
    add_fanout_events(rows, states, due, wires)
}
