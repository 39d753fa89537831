//! The period of wires.
ghost use Rattle.std.specs.Prelude.{◌≡◌, ◌<◌, ◌≤◌, ◌⊎◌, IfOk, IfNone, IfSome, IsSome, Some, false};
ghost use Rattle.std.specs.List.{Contains};
ghost use Rattle.mp_netlist.specs.Circuit.{wire_at};
ghost use Rattle.mp_model.specs.Waves.{level, wave};
ghost use Rattle.mp_wave.specs.WaveChanges.{changes_in};
ghost use Rattle.mp_questions.specs.timing.Events.{since};
ghost use Rattle.mp_steady.specs.Periods.{heard_from, is_over, last_change, last_unit, period};
ghost use Rattle.mp_steady.specs.RunTimes.{AreTimes};
ghost use Rattle.mp_steady.specs.WireSets.{numbers};

use crate::repeats::Trial;
use crate::run_times::RunTimes;
use crate::wave_repeats::time_of;
use crate::wire_set::WireSet;
use mp_netlist::WireId;
use mp_wave::WaveChanges;
use std::alloc::{AllocError, Global};

/// The least number of units after which wires that aren't over repeat, if they do.
pub(crate) fn period(
    alloc: Global,
    set: WireSet<'_>,
    times: RunTimes,
) -> Result<Option<u32>, AllocError>
    requires times { AreTimes set.of.netlist.now (numbers set.wires.now) times }
    requires moving { is_over set.of.netlist.now (numbers set.wires.now) ≡ false }
    ensures { IfOk result (λ found. found ≡ period set.entry.of.netlist.now (numbers set.entry.wires.now)) }
{
    match guide(set, times) {
        Some(suspect) => least_distance(
            alloc,
            Trial {
                set,
                times,
                suspect,
            },
        ),
        None => Ok(None),
    }
}

/// A wire with its number of changes.
#[derive(Clone, Copy)]
struct Candidate {
    wire: WireId,
    count: usize,
}

/// Of the wires that change after the first time that modules may still hear, the one with the fewest changes.
fn guide(set: WireSet<'_>, times: RunTimes) -> Option<WireId>
    requires { AreTimes set.of.netlist.now (numbers set.wires.now) times }
    ensures none { IfNone result (last_change set.entry.of.netlist.now (numbers set.entry.wires.now) ≤ heard_from set.entry.of.netlist.now (numbers set.entry.wires.now)) }
    ensures some { IfSome result (λ w. Contains set.entry.wires.now w) }
    ensures late { IfSome result (λ w. heard_from set.entry.of.netlist.now (numbers set.entry.wires.now) < since (level set.entry.of.netlist.now w.0) (last_unit set.entry.of.netlist.now)) }
{
    let from = times.heard_from();
    let mut found = None;
    for &wire in set.wires {
        let changes = set.wave_of(wire).changes();
        if time_of(changes) <= from {
            continue;
        }
        let count = changes.len();
        found = Some(with_fewer(found, Candidate { wire, count }));
    }
    match found {
        Some(candidate) => Some(candidate.wire),
        None => None,
    }
}

/// Of a wire that was found before, if one was, and another one the wire with fewer changes.
fn with_fewer(found: Option<Candidate>, other: Candidate) -> Candidate
    ensures { (result ≡ other) ⊎ (found ≡ Some result) }
{
    match found {
        Some(before) => fewer(before, other),
        None => other,
    }
}

fn fewer(one: Candidate, other: Candidate) -> Candidate
    ensures { (result ≡ other) ⊎ (result ≡ one) }
{
    if one.count <= other.count { one } else { other }
}

/// The least time from an earlier change of the suspect to its last one after which the wires repeat. If they do, each period is such a time, since a
/// change that modules may still hear has its like a period before.
fn least_distance(alloc: Global, mut trial: Trial<'_>) -> Result<Option<u32>, AllocError>
    requires { heard_from trial.set.of.netlist.now (numbers trial.set.wires.now) < since (level trial.set.of.netlist.now trial.suspect.0) (last_unit trial.set.of.netlist.now) }
    ensures { IfOk result (λ found. found ≡ period trial.entry.set.of.netlist.now (numbers trial.entry.set.wires.now)) }
{
    let longest = trial.times.longest_period();
    let changes = trial.set.wave_of(trial.suspect).changes();
    let last = changes.len() - 1;
    let time = changes.time_at(last);
    let level = changes.level_at(last);
    for back in 0..last {
        let place = last - 1 - back;
        let units = time - changes.time_at(place);
        if units > longest {
            return Ok(None);
        }
        if changes.level_at(place) != level {
            continue;
        }
        let found = trial.repeats(alloc, units)?;
        if found {
            return Ok(Some(units));
        }
    }
    Ok(None)
}
