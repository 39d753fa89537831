//! How the changes of a dump are divided.
ghost use Rattle.std.specs.Prelude.{◌≡◌, ◌<◌, ◌≤◌};
ghost use Rattle.mp_exports.specs.vcd.Clauses.{IfOk, flat_map, passage_text, times_text};

use crate::vcd::recorded::Recorded;
use crate::vcd::time_chunk::TimeChunk;
use mp_netlist::WireId;
use std::alloc::{AllocError, Global};

/// How many bytes a passage has, about, if there are several.
const PASSAGE_BYTES: usize = 2_097_152;

/// How many bytes a passage has at most, about, if there are several.
const MOST_BYTES: usize = 8_388_608;

/// From this number of threads on the text is divided into passages: two threads don't make it faster than one.
const LEAST_THREADS: usize = 3;

/// The least number of portions of a passage, such that it costs little to find where the changes of each wire begin in it.
const PORTIONS: u32 = 4;

/// How many bytes the value of a wire has beside its digits, about: what goes before them, a code and a line feed.
const BYTES_BESIDE: usize = 6;

/// How many bytes the line of a time has, about.
const TIME_BYTES: usize = 8;

/// The times from 1 to one below the horizon, divided into passages for this number of threads. There is one passage if there are one or two threads,
/// or little to write, or too many wires for the text of the least number of portions.
pub(crate) fn passages_of(
    alloc: Global,
    of: Recorded<'_>,
    threads: usize,
) -> Result<Vec<TimeChunk<'_>>, AllocError>
    ensures { IfOk result (λ passages. flat_map passage_text passages.items ≡ times_text of.entry.netlist.now 1 of.entry.netlist.now.horizon) }
{
    let horizon = of.netlist.horizon();
    let units = if threads < LEAST_THREADS {
        horizon
    } else {
        units_of_passage(of)
    };
    let mut passages = Vec::new(alloc);
    let mut from: u32 = 1;
    while from < horizon {
        let to = from.saturating_add(units.max(1)).min(horizon);
        passages.push(TimeChunk { of, from, to })?;
        from = to;
    }
    Ok(passages)
}

/// How many units a passage has.
fn units_of_passage(of: Recorded<'_>) -> u32 {
    let horizon = of.netlist.horizon();
    let bytes = text_bytes(of);
    let least = of.portion.units.saturating_mul(PORTIONS);
    if least > units_in(horizon, bytes, MOST_BYTES) {
        return horizon;
    }
    units_in(horizon, bytes, PASSAGE_BYTES).max(least)
}

/// The number of units with this number of bytes, of all bytes up to the horizon.
fn units_in(horizon: u32, all: usize, bytes: usize) -> u32
    requires { 0 < bytes }
    ensures { result ≤ horizon }
{
    (horizon as usize / (all / bytes).saturating_add(1)) as u32
}

/// How many bytes the changes have, about.
fn text_bytes(of: Recorded<'_>) -> usize {
    let mut bytes = 0usize;
    let mut changes = 0usize;
    for number in 0..of.netlist.wire_slots() {
        if let (Some(wire), Some(wave)) = (
            of.netlist.wire(WireId(number)),
            of.waves.of(WireId(number)),
        ) {
            let count = wave.changes().len();
            bytes = bytes.saturating_add(count.saturating_mul(wire.width as usize + BYTES_BESIDE));
            changes = changes.saturating_add(count);
        }
    }
    let times = changes.min(of.netlist.horizon() as usize);
    bytes.saturating_add(times.saturating_mul(TIME_BYTES))
}
