//! What a module finds at its inputs in a unit: events, and present levels.
ghost use Rattle.std.specs.Prelude.{◌≡◌, false, ◌≤◌, length, map, take};
ghost use Rattle.std.specs.List.{list_any};
ghost use Rattle.mp_records.specs.declared.ports.Input.{Input as Port};
ghost use Rattle.mp_model.specs.Evaluations.{change_at, event_at, is_late, present_at};

use crate::track::Track;
use mp_modules::MOST_INPUTS;
use mp_netlist::{Input, WireId};

/// Whether the level at an input of a module changed now. If no input of the netlist has a delay, no delay is read.
#[inline(always)]
pub(crate) fn has_event(tracks: &[Option<Track>], inputs: &[Input], time: u32, late: bool) -> bool
    requires { late ≡ false → list_any is_late inputs.now ≡ false }
    ensures { result ≡ list_any (λ (port : Port). event_at tracks.now time port) inputs.now }
{
    if late {
        has_late_event(tracks, inputs, time)
    } else {
        has_change(tracks, inputs)
    }
}

#[inline(never)]
fn has_late_event(tracks: &[Option<Track>], inputs: &[Input], time: u32) -> bool
    ensures { result ≡ list_any (λ (port : Port). event_at tracks.now time port) inputs.now }
{
    inputs.iter().any(|port| is_event(tracks, *port, time))
}

/// Whether the level of a wire that a module reads changed now.
#[inline(always)]
fn has_change(tracks: &[Option<Track>], inputs: &[Input]) -> bool
    ensures { result ≡ list_any (λ (port : Port). change_at tracks.now port.wire.0) inputs.now }
{
    inputs.iter().any(|port| is_change(tracks, port.wire))
}

#[inline(always)]
fn is_change(tracks: &[Option<Track>], wire: WireId) -> bool
    ensures { result ≡ change_at tracks.now wire.0 }
{
    match tracks.get(wire.0 as usize) {
        Some(Some(track)) => track.has_event(),
        _ => false,
    }
}

#[inline(always)]
fn is_event(tracks: &[Option<Track>], port: Input, time: u32) -> bool
    ensures { result ≡ event_at tracks.now time port }
{
    match tracks.get(port.wire.0 as usize) {
        Some(Some(track)) => track.has_event_before(time, port.delay),
        _ => false,
    }
}

/// Reads the present levels of a module's inputs, by port, into `levels`. It writes there and returns nothing, since returning them would copy what
/// has just been written.
pub(crate) fn read_levels(
    tracks: &[Option<Track>],
    inputs: &[Input],
    time: u32,
    levels: &mut [u64; MOST_INPUTS],
)
    requires { length inputs.now ≤ MOST_INPUTS }
    ensures { take (length inputs.now) levels.new ≡ map (λ (port : Port). present_at tracks.now time port) inputs.now }
{
    for (p, port) in inputs.iter().enumerate() {
        levels[p] = present_level(tracks, *port, time);
    }
}

#[inline(always)]
fn present_level(tracks: &[Option<Track>], port: Input, time: u32) -> u64
    ensures { result ≡ present_at tracks.now time port }
{
    match tracks.get(port.wire.0 as usize) {
        Some(Some(track)) => track.level_before(time, port.delay),
        _ => 0,
    }
}
