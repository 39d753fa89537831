//! What modules decided in the old run for the horizon and later, which no wave has.
ghost use Rattle.std.specs.Prelude.{◌≡◌, ◌+◌, ◌-◌, ◌<◌, ◌≤◌, ◌^◌, ℕ, Some, IfOk, OnOk, length};
ghost use Rattle.mp_wave.specs.Waveform.{IsWaveform, level_of};
ghost use Rattle.mp_records.specs.Outputs.{delay_of};
ghost use Rattle.mp_netlist.specs.Circuit.{Drives};
ghost use Rattle.mp_model.specs.Tracks.{AreTimesIn, held_all};
ghost use Rattle.mp_model.specs.Waves.{level, state};
ghost use Rattle.mp_model.specs.response.Delays.{IsSpanOf};
ghost use Rattle.mp_model.specs.response.Pieces.{put_off};
ghost use Rattle.mp_depend.specs.work.Revisions.{IsKept};
ghost use Rattle.mp_active.specs.compare.Comparing.{old_wave};
ghost use Rattle.mp_redo.specs.rerun.Reruns.{IsChange};

use crate::rerun::old_state::{old_pieces, old_state_before};
use mp_active::Change;
use mp_model::{Piece, built, respond};
use mp_netlist::{ModuleId, ModuleRecord, Output};
use mp_partition::Run;
use mp_wave::{Wave, WaveBuilder};
use std::alloc::{AllocError, Global};

/// The wave of an output's wire in the old run from the unit before the horizon on, as far as it rests on states up to the unit of a time: it goes on
/// if the run has ended.
pub(crate) fn last_wave(
    alloc: Global,
    change: &Change<'_>,
    id: ModuleId,
    found: &ModuleRecord,
    port: usize,
    now: u32,
) -> Result<Wave, AllocError>
    requires change { IsChange change.now }
    requires kept { IsKept change.now.old.now change.now.new.now id.0 found.now }
    requires port { port < length found.now.outputs }
    requires below { now + 1 < change.now.new.now.horizon }
    requires long { change.now.new.now.horizon ≤ now + delay_of found.now port }
    ensures form { IfOk result (λ last. IsWaveform last) }
    ensures levels { IfOk result (λ last. (w u : ℕ) → Drives change.now.new.now id.0 port w → change.now.new.now.horizon ≤ u + 1 → u ≤ now + delay_of found.now port →
        level_of last u ≡ level change.now.old.now w u) }
{
    let outputs = found.outputs.as_slice();
    let output = outputs[port];
    let horizon = change.new.horizon();
    let first = horizon.saturating_sub(output.delay);
    let piece = last_piece(alloc, change, id, found, first, now)?;
    let mut wave = WaveBuilder::new(alloc, old_level(change.run, output, horizon - 1));
    let ports = piece.outputs.ports();
    let held = hold_later(&mut wave, ports[port].as_slice(), output.delay);
    drop(piece);
    match held {
        Ok(()) => Ok(wave.finish()),
        Err(error) => {
            drop(wave);
            Err(error)
        }
    }
}

/// What a module did in the old run from one time up to another.
fn last_piece(
    alloc: Global,
    change: &Change<'_>,
    id: ModuleId,
    found: &ModuleRecord,
    first: u32,
    now: u32,
) -> Result<Piece, AllocError>
    requires change { IsChange change.now }
    requires kept { IsKept change.now.old.now change.now.new.now id.0 found.now }
    requires first { first ≤ now }
    requires below { now + 1 < change.now.new.now.horizon }
    ensures { IfOk result (λ piece. IsSpanOf change.now.old.now (level change.now.old.now) (state change.now.old.now) id.0 found.now first (now + 1) piece) }
{
    let part = built(change.new, found);
    let memory = old_state_before(alloc, change, id, found, &part, first)?;
    let pieces = old_pieces(alloc, change.run, found.inputs.as_slice(), first, now + 1)?;
    let piece = respond(alloc, &part, memory, pieces.as_slice(), first, now + 1)?;
    Ok(piece)
}

/// The level of an output's wire at a time in the old run, and 0 if it has none.
fn old_level(run: &Run, output: Output, time: u32) -> u64
    ensures { (w : ℕ) → output.wire ≡ Some (record { 0 = w }) → result ≡ level_of (old_wave run.now w) time }
{
    let Some(wire) = output.wire else {
        return 0;
    };
    match run.wave(wire) {
        Some(wave) => wave.level_at(time),
        None => 0,
    }
}

/// Continues a wave with these changes, each later by the delay.
fn hold_later(wave: &mut WaveBuilder, changes: &[(u32, u64)], delay: u32) -> Result<(), AllocError>
    requires { AreTimesIn wave.old.next (2 ^ 32 - 1) (put_off delay changes.now) }
    ensures { OnOk result (wave.new ≡ held_all wave.old (put_off delay changes.now)) }
{
    let mut rest = changes;
    while let Some((change, later)) = rest.split_first() {
        wave.push_level(change.0 + delay, change.1)?;
        rest = later;
    }
    Ok(())
}
