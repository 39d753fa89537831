//! Gaps between events, and margins of bundles.
ghost use Rattle.std.specs.Prelude.{◌≡◌, ◌-◌, ◌<◌, ◌≤◌, ℕ, All, IfSome, IsSome, option_map};
ghost use Rattle.std.specs.List.Sorted.{IsNonDecreasingBy};
ghost use Rattle.mp_netlist.specs.Circuit.{IsCircuit, wire_at};
ghost use Rattle.mp_model.specs.Waves.{AreWavesOf, level, wave};
ghost use Rattle.mp_wave.specs.WaveChanges.{changes_in};
ghost use Rattle.mp_questions.specs.timing.Events.{times_of};
ghost use Rattle.mp_questions.specs.timing.Extremes.{extremes};
ghost use Rattle.mp_questions.specs.late.Lists.{units_within};
ghost use Rattle.mp_questions.specs.timing.Measures.{gaps, lateness, responses, setups};
ghost use Rattle.mp_questions.specs.timing.Trails.{IsTrail};

use crate::late::Late;
use crate::timing::extremes::{Extremes, widened, widened_by};
use crate::timing::range::Units;
use crate::timing::trail::Trail;
use mp_model::Waves;
use mp_netlist::{Netlist, WireId};
use mp_wave::WaveChanges;

/// The least and the greatest gap between two events that follow each other.
pub(crate) fn gaps(events: WaveChanges<'_>) -> Option<Extremes>
    requires { IsNonDecreasingBy (λ (c : ℕ × ℕ). c.0) (changes_in events) }
    ensures { result ≡ extremes (gaps (times_of (changes_in events.entry))) }
{
    let Some((first, later)) = events.split_first() else {
        return None;
    };
    let mut found = None;
    let mut before = first.0;
    for place in 0..later.len() {
        let time = later.time_at(place);
        found = widened(found, time - before);
        before = time;
    }
    found
}

/// The extremes of how long the data of each request stood, if they changed at all. The requests are read once, and so are the data.
pub(crate) fn setups(
    netlist: &Netlist,
    waves: &Waves,
    payload: WireId,
    requests: WaveChanges<'_>,
) -> Option<Extremes>
    requires form { IsCircuit netlist.now }
    requires waves { AreWavesOf netlist.now waves.now }
    requires stands { IsSome (wire_at netlist.now payload.0) }
    requires rising { IsNonDecreasingBy (λ (c : ℕ × ℕ). c.0) (changes_in requests) }
    requires within { All (λ (c : ℕ × ℕ). c.0 < netlist.now.horizon) (changes_in requests) }
    ensures { result ≡ setups (level netlist.now payload.0) (times_of (changes_in requests.entry)) }
{
    let mut trail = trail_of(netlist, waves, payload);
    let mut found = None;
    for place in 0..requests.len() {
        let time = requests.time_at(place);
        trail = trail.upto(time);
        found = widened_by(found, units_since(trail.last, time));
    }
    found
}

/// The extremes of how long after each request the next acknowledge came, if one did. The requests are read once, and so are the acknowledges.
pub(crate) fn responses(
    netlist: &Netlist,
    waves: &Waves,
    acknowledge: WireId,
    requests: WaveChanges<'_>,
) -> Option<Extremes>
    requires form { IsCircuit netlist.now }
    requires waves { AreWavesOf netlist.now waves.now }
    requires stands { IsSome (wire_at netlist.now acknowledge.0) }
    requires rising { IsNonDecreasingBy (λ (c : ℕ × ℕ). c.0) (changes_in requests) }
    requires within { All (λ (c : ℕ × ℕ). c.0 < netlist.now.horizon) (changes_in requests) }
    ensures { result ≡ responses (level netlist.now acknowledge.0) netlist.now.horizon (times_of (changes_in requests.entry)) }
{
    let mut trail = trail_of(netlist, waves, acknowledge);
    let mut found = None;
    for place in 0..requests.len() {
        let time = requests.time_at(place);
        trail = trail.upto(time);
        found = widened_by(found, units_until(trail.next(), time));
    }
    found
}

/// The extremes of by how much data are late that change in a range of times, of all that is late at their bundle.
pub(crate) fn lateness(late: &[Late], units: Units) -> Option<Extremes>
    ensures { result ≡ lateness units.from units.to late.now }
{
    let mut found = None;
    for one in late {
        found = widened_by(found, units_within(one, units));
    }
    found
}

fn units_within(late: &Late, units: Units) -> Option<u32>
    ensures { result ≡ units_within units.from units.to late.now }
{
    if units.from <= late.time && late.time < units.to {
        return Some(late.units);
    }
    None
}

/// The events of a wire from time 0 on.
fn trail_of<'a>(netlist: &Netlist, waves: &'a Waves, wire: WireId) -> Trail<'a>
    requires waves { AreWavesOf netlist.now waves.now }
    requires stands { IsSome (wire_at netlist.now wire.0) }
    ensures { IsTrail (wave netlist.now wire.0).changes 0 result }
{
    match waves.of(wire) {
        Some(wave) => Trail::of(wave),
        None => unreachable!(),
    }
}

fn units_since(last: Option<u32>, time: u32) -> Option<u32>
    requires { IfSome last (λ u. u ≤ time) }
    ensures { result ≡ option_map (λ u. time - u) last }
{
    match last {
        Some(last) => Some(time - last),
        None => None,
    }
}

fn units_until(next: Option<u32>, time: u32) -> Option<u32>
    requires { IfSome next (λ u. time ≤ u) }
    ensures { result ≡ option_map (λ u. u - time) next }
{
    match next {
        Some(next) => Some(next - time),
        None => None,
    }
}
