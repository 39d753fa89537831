//! A module over a span of time.

ghost use Rattle.std.specs.Prelude.{◌≡◌, ◌+◌, ◌<◌, ◌≤◌, ◌^◌, All, length, IfOk};
ghost use Rattle.mp_wave.specs.Waveform.{level_of, between};
ghost use Rattle.mp_wave.specs.WaveChanges.{changes_in};
ghost use Rattle.mp_model.specs.response.Pieces.{IsInPiece, later_by, levels_at, put_off};
ghost use Rattle.mp_model.specs.response.Span.{IsSpan};

use crate::response::changes::Changes;
use crate::response::cursors::Cursors;
use crate::response::in_piece::InPiece;
use crate::response::piece::Piece;
use mp_modules::{AnyModule, MOST_INPUTS, Memory};
use mp_wave::{Wave, WaveChanges};
use std::alloc::{AllocError, Global};

/// A wire's wave as an input from one time to before another: its level at the first time, and its changes after that. Its place is
/// found by search, so it takes as long as what is copied.
pub fn cut(alloc: Global, wave: &Wave, from: u32, to: u32) -> Result<InPiece, AllocError>
    requires { from < to }
    ensures value { IfOk result (λ piece. piece ≡ record { at_from = level_of wave.now from; changes = between from to wave.now.changes }) }
    ensures form { IfOk result (λ piece. IsInPiece from to piece) }
{
    let at_from = wave.level_at(from);
    let changes = wave.changes_between(from, to).to_vec(alloc)?;
    Ok(InPiece {
        at_from,
        changes: Changes::from_vec(changes),
    })
}

/// The part of a wire's wave from one time to before another, as an input with a delay sees it: later by the delay. No delayed wave is made.
pub fn cut_delayed(
    alloc: Global,
    wave: &Wave,
    delay: u32,
    from: u32,
    to: u32,
) -> Result<InPiece, AllocError>
    requires { from < to }
    ensures value { IfOk result (λ piece. piece ≡ record { at_from = level_of (later_by delay wave.now) from; changes = between from to (put_off delay wave.now.changes) }) }
    ensures form { IfOk result (λ piece. IsInPiece from to piece) }
{
    let start = from.saturating_sub(delay);
    let end = to.saturating_sub(delay);
    let at_from = wave.level_at(start);
    let changes = put_off(alloc, wave.changes_between(start, end), delay)?;
    Ok(InPiece {
        at_from,
        changes: Changes::from_vec(changes),
    })
}

/// The changes, each later by the delay.
fn put_off(
    alloc: Global,
    changes: WaveChanges<'_>,
    delay: u32,
) -> Result<Vec<(u32, u64)>, AllocError>
    requires { All (λ change. change.0 + delay < 2 ^ 32) (changes_in changes) }
    ensures { IfOk result (λ late. late.items ≡ put_off delay (changes_in changes.entry)) }
{
    let mut late = Vec::new(alloc);
    for place in 0..changes.len() {
        late.push((changes.time_at(place) + delay, changes.level_at(place)))?;
    }
    Ok(late)
}

/// Runs a module from one time to before another, from its state before the first and with these pieces of waves at its input ports. At time 0 the
/// module settles, and at each later time it steps. Units in which no input changes are skipped, so the call costs time for each change, not for each
/// unit.
pub fn respond(
    alloc: Global,
    part: &AnyModule,
    memory: Memory,
    inputs: &[InPiece],
    from: u32,
    to: u32,
) -> Result<Piece, AllocError>
    requires span { from < to }
    requires ports { length inputs.now ≤ MOST_INPUTS }
    ensures { IfOk result (λ piece. IsSpan part.now (levels_at inputs.now) memory from to piece) }
{
    let mut piece = Piece::none(alloc, memory, part.kind().outputs());
    let mut cursors = Cursors::of(inputs, from);
    let mut time = from;
    while time < to {
        let levels = cursors.levels();
        piece.extend(part, &levels[..inputs.len()], time)?;
        time = cursors.next_change(to);
        cursors = cursors.advanced(time);
    }
    Ok(piece)
}
