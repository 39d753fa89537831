//! Waves that are known up to a time, and go on with those of the old run.
ghost use Rattle.std.specs.Prelude.{◌≡◌, ◌-◌, ◌^◌, ◌<◌, ◌≤◌, IfOk, OnOk};
ghost use Rattle.mp_wave.specs.Waveform.{level_of};
ghost use Rattle.mp_wave.specs.WaveChanges.{changes_in};
ghost use Rattle.mp_model.specs.Tracks.{AreTimesIn, held_all};
ghost use Rattle.mp_active.specs.compare.Comparing.{old_wave};
ghost use Rattle.mp_redo.specs.rerun.Splicing.{switched, IsUpTo, IsWaveUpTo};

use mp_netlist::WireId;
use mp_partition::Run;
use mp_wave::{Wave, WaveBuilder, WaveChanges};
use std::alloc::{AllocError, Global};

/// The wave that has the levels of another before a time, and from then on those that a wire had in a run, up to an end.
pub(crate) fn spliced_wave(
    alloc: Global,
    before: &Wave,
    from: u32,
    run: &Run,
    wire: WireId,
    end: u32,
) -> Result<Wave, AllocError>
    requires some { 0 < from }
    requires below { from < end }
    ensures { IfOk result (IsWaveUpTo (switched from (level_of before.now) (level_of (old_wave run.now wire.0))) end) }
{
    let mut built = WaveBuilder::from_prefix(alloc, before, from)?;
    follow_run(&mut built, run, wire, from, end)?;
    Ok(built.finish())
}

/// From a time on the levels that a wire had in a run, up to an end.
fn follow_run(
    built: &mut WaveBuilder,
    run: &Run,
    wire: WireId,
    from: u32,
    to: u32,
) -> Result<(), AllocError>
    requires later { built.old.next ≤ from }
    requires some { from < to }
    ensures { OnOk result (IsUpTo (switched from (level_of built.old.wave) (level_of (old_wave run.now wire.0))) to built.new) }
{
    // Its contract says that what was built is in form.
    let _next = built.next_time();
    match run.wave(wire) {
        Some(wave) => follow(built, wave, from, to),
        None => built.push_level(from, 0),
    }
}

/// From a time on the levels of a wave, up to an end.
fn follow(built: &mut WaveBuilder, wave: &Wave, from: u32, to: u32) -> Result<(), AllocError>
    requires later { built.old.next ≤ from }
    requires some { from < to }
    ensures { OnOk result (IsUpTo (switched from (level_of built.old.wave) (level_of wave.now)) to built.new) }
{
    // Its contract says that what was built is in form.
    let _next = built.next_time();
    built.push_level(from, wave.level_at(from))?;
    hold_all(built, wave.changes_between(from, to))
}

/// Holds the level of each change from its time on.
fn hold_all(built: &mut WaveBuilder, changes: WaveChanges<'_>) -> Result<(), AllocError>
    requires { AreTimesIn built.old.next (2 ^ 32 - 1) (changes_in changes) }
    ensures { OnOk result (built.new ≡ held_all built.old (changes_in changes.entry)) }
{
    let mut rest = changes;
    while let Some((change, later)) = rest.split_first() {
        built.push_level(change.0, change.1)?;
        rest = later;
    }
    Ok(())
}
