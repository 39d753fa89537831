//! The changes of a netlist's waves by time.
ghost use Rattle.std.specs.Prelude.{◌≡◌, ◌+◌, ◌-◌, ◌<◌, ◌≤◌};
ghost use Rattle.mp_exports.specs.vcd.Clauses.{ℕ, List, IfOk, OnOk, vec_len, wire_at, AreWavesOf, changes_in, Tells, told_from, onto, onto_slot, told_at};

use crate::vcd::change_queue::ChangeQueue;
use crate::vcd::parts::part;
use crate::vcd::recorded::Recorded;
use mp_netlist::WireId;
use mp_wave::WaveChanges;
use std::alloc::{AllocError, Global};

/// The changes of all wires by time, from a time to before another, those of a time by wire; with room for as many as a portion has. Each wire's are looked for
/// at its place, which is afterwards that of its next change.
pub(crate) fn agenda_of(
    alloc: Global,
    of: Recorded<'_>,
    places: &mut [usize],
    from: u32,
    to: u32,
) -> Result<ChangeQueue, AllocError>
    requires from { 0 < from }
    requires order { from ≤ to }
    requires end { to ≤ of.netlist.now.horizon }
    ensures from { IfOk result (λ agenda. agenda.from ≡ from) }
    ensures times { IfOk result (λ agenda. vec_len agenda.firsts ≡ to - from) }
    ensures told { IfOk result (λ agenda. Tells agenda.firsts.items agenda.entries.items (told_from from (told_at of.entry.netlist.now))) }
{
    let mut agenda = ChangeQueue::new(alloc, from, to - from, of.portion.changes)?;
    let mut number = of.netlist.wire_slots();
    while number > 0 {
        number -= 1;
        add_wire(&mut agenda, of, places, WireId(number), to)?;
    }
    Ok(agenda)
}

/// Puts the changes of a wire at the agenda's times, the last of which is before another, before the others of their times.
#[tactic(auto, using(crate::proofs::lemmas::vcd::AgendaLemmas::told_as, crate::proofs::lemmas::vcd::StandingLemmas::none_in))]
fn add_wire(
    agenda: &mut ChangeQueue,
    of: Recorded<'_>,
    places: &mut [usize],
    id: WireId,
    to: u32,
) -> Result<(), AllocError>
    requires from { 0 < agenda.old.from }
    requires order { agenda.old.from ≤ to }
    requires end { to ≤ of.netlist.now.horizon }
    requires times { vec_len agenda.old.firsts ≡ to - agenda.old.from }
    ensures from { OnOk result (agenda.new.from ≡ agenda.old.from) }
    ensures times { OnOk result (vec_len agenda.new.firsts ≡ vec_len agenda.old.firsts) }
    ensures told { OnOk result ((told : ℕ → List (ℕ × ℕ)) → Tells agenda.old.firsts.items agenda.old.entries.items (told_from agenda.old.from told)
        → Tells agenda.new.firsts.items agenda.new.entries.items (told_from agenda.old.from (λ t. onto_slot of.entry.netlist.now t id.0 (wire_at of.entry.netlist.now id.0) (told t)))) }
{
    let Some(wave) = of.waves.of(id) else {
        return Ok(());
    };
    let place = places.get(id.0 as usize).copied().unwrap_or(0);
    let changes = part(wave, agenda.from, to, place);
    add_changes(agenda, id.0, changes)?;
    set_place(places, id, place.saturating_add(changes.len()));
    Ok(())
}

fn set_place(places: &mut [usize], id: WireId, place: usize) {
    if let Some(next) = places.get_mut(id.0 as usize) {
        *next = place;
    }
}

#[tactic(auto, using(std::proofs::Common::take_all, crate::proofs::lemmas::vcd::AgendaLemmas::told_as))]
fn add_changes(
    agenda: &mut ChangeQueue,
    wire: u32,
    changes: WaveChanges<'_>,
) -> Result<(), AllocError>
    ensures from { OnOk result (agenda.new.from ≡ agenda.old.from) }
    ensures times { OnOk result (vec_len agenda.new.firsts ≡ vec_len agenda.old.firsts) }
    ensures told { OnOk result ((told : ℕ → List (ℕ × ℕ)) → Tells agenda.old.firsts.items agenda.old.entries.items (told_from agenda.old.from told)
        → Tells agenda.new.firsts.items agenda.new.entries.items (told_from agenda.old.from (λ t. onto wire (changes_in changes.entry) t (told t)))) }
{
    for place in 0..changes.len() {
        agenda.add(changes.time_at(place), wire, changes.level_at(place))?;
    }
    Ok(())
}
