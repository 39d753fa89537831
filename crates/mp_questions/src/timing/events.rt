//! The events of a wire.
ghost use Rattle.std.specs.Prelude.{◌≡◌, ◌<◌, ◌≤◌, ℕ, All, IsSome};
ghost use Rattle.std.specs.List.Sorted.{IsNonDecreasingBy};
ghost use Rattle.mp_netlist.specs.Circuit.{IsCircuit, wire_at};
ghost use Rattle.mp_model.specs.Waves.{AreWavesOf, level};
ghost use Rattle.mp_wave.specs.WaveChanges.{changes_in};
ghost use Rattle.mp_questions.specs.timing.Events.{event_times, times_of};

use crate::timing::range::Units;
use mp_model::Waves;
use mp_netlist::{Netlist, WireId};
use mp_wave::WaveChanges;

/// The changes of a wire that exists in a range of units below the horizon.
pub(crate) fn events_within<'a>(
    netlist: &Netlist,
    waves: &'a Waves,
    wire: WireId,
    units: Units,
) -> WaveChanges<'a>
    requires form { IsCircuit netlist.now }
    requires waves { AreWavesOf netlist.now waves.now }
    requires stands { IsSome (wire_at netlist.now wire.0) }
    requires within { units.to ≤ netlist.now.horizon }
    ensures times { times_of (changes_in result) ≡ event_times (level netlist.now wire.0) units.from units.to }
    ensures rising { IsNonDecreasingBy (λ (c : ℕ × ℕ). c.0) (changes_in result) }
    ensures within { All (λ (c : ℕ × ℕ). c.0 < netlist.now.horizon) (changes_in result) }
{
    match waves.of(wire) {
        Some(wave) => wave.changes_between(units.from.saturating_sub(1), units.to),
        None => unreachable!(),
    }
}
