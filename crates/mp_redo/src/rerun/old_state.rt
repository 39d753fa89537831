//! The states that modules had in the old run.
ghost use Rattle.std.specs.Prelude.{◌≡◌, ◌-◌, ◌<◌, ◌≤◌, ℕ, IfOk, map, length};
ghost use Rattle.mp_wave.specs.Waveform.{level_of};
ghost use Rattle.mp_modules.specs.declared.memory.TheConstants.{MOST_INPUTS};
ghost use Rattle.mp_records.specs.declared.ports.Input.{Input as Port};
ghost use Rattle.mp_partition.specs.runs.Checkpoints.{state_before};
ghost use Rattle.mp_model.specs.Levels.{built};
ghost use Rattle.mp_model.specs.response.Pieces.{levels_at, piece_level};
ghost use Rattle.mp_depend.specs.work.Revisions.{IsKept};
ghost use Rattle.mp_active.specs.compare.Comparing.{old_wave};
ghost use Rattle.mp_redo.specs.rerun.Reruns.{IsChange};

use mp_active::Change;
use mp_depend::{block_of, old_state};
use mp_model::{Changes, InPiece, cut_delayed, respond};
use mp_modules::{AnyModule, MOST_INPUTS, Memory};
use mp_netlist::{Input, ModuleId, ModuleRecord};
use mp_partition::Run;
use mp_wave::Wave;
use std::alloc::{AllocError, Global};

/// The state of a module before the unit of a time in the old run: it answers once more from its block's begin on.
pub(crate) fn old_state_before(
    alloc: Global,
    change: &Change<'_>,
    id: ModuleId,
    found: &ModuleRecord,
    part: &AnyModule,
    time: u32,
) -> Result<Memory, AllocError>
    requires change { IsChange change.now }
    requires kept { IsKept change.now.old.now change.now.new.now id.0 found.now }
    requires part { part.now ≡ built change.now.new.now found.now }
    requires below { time < change.now.new.now.horizon }
    ensures { IfOk result (λ memory. memory ≡ state_before change.now.old.now id.0 found.now time) }
{
    let block = block_of(change.new.horizon(), time);
    let memory = old_state(change.run, id, block);
    if block == time {
        return Ok(memory);
    }
    let pieces = old_pieces(alloc, change.run, found.inputs.as_slice(), block, time)?;
    let piece = respond(alloc, part, memory, pieces.as_slice(), block, time)?;
    Ok(piece.memory)
}

/// What was at these inputs in the old run.
pub(crate) fn old_pieces(
    alloc: Global,
    run: &Run,
    inputs: &[Input],
    from: u32,
    to: u32,
) -> Result<Vec<InPiece>, AllocError>
    requires { from < to }
    ensures places { IfOk result (λ pieces. length pieces.items ≡ length inputs.now) }
    ensures levels { IfOk result (λ pieces. (t : ℕ) → from ≤ t → t < to → levels_at pieces.items t ≡ map (λ (i : Port). level_of (old_wave run.now i.wire.0) (t - i.delay)) inputs.now) }
{
    let mut pieces = Vec::with_capacity(alloc, MOST_INPUTS)?;
    for input in inputs {
        pieces.push(old_piece(alloc, run, *input, from, to)?)?;
    }
    Ok(pieces)
}

fn old_piece(
    alloc: Global,
    run: &Run,
    input: Input,
    from: u32,
    to: u32,
) -> Result<InPiece, AllocError>
    requires { from < to }
    ensures { IfOk result (λ piece. (t : ℕ) → from ≤ t → t < to → piece_level piece t ≡ level_of (old_wave run.now input.wire.0) (t - input.delay)) }
{
    match run.wave(input.wire) {
        Some(wave) => cut_wave(alloc, wave, input.delay, from, to),
        None => Ok(InPiece {
            at_from: 0,
            changes: Changes::none(alloc),
        }),
    }
}

/// The part of a wave from one time to before another, as an input with this delay sees it.
fn cut_wave(
    alloc: Global,
    wave: &Wave,
    delay: u32,
    from: u32,
    to: u32,
) -> Result<InPiece, AllocError>
    requires { from < to }
    ensures { IfOk result (λ piece. (t : ℕ) → from ≤ t → t < to → piece_level piece t ≡ level_of wave.now (t - delay)) }
{
    // Its contract says that the wave is in form.
    let _initial = wave.initial();
    cut_delayed(alloc, wave, delay, from, to)
}
