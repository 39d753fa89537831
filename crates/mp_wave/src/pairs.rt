//! Conversions of changes to pairs.
ghost use Rattle.std.specs.Prelude.{◌≡◌, IfOk};
ghost use Rattle.mp_wave.specs.ToggleWaves.{toggle_changes};

use std::alloc::{AllocError, Global};

/// The changes of a level that toggles at these times.
pub(crate) fn pairs_of(
    alloc: Global,
    level: u64,
    times: &[u32],
) -> Result<Vec<(u32, u64)>, AllocError>
    ensures { IfOk result (λ pairs. pairs.items ≡ toggle_changes level times.now) }
{
    let mut pairs = Vec::with_capacity(alloc, times.len())?;
    let mut present = level;
    for time in times {
        present = 1u64.saturating_sub(present);
        pairs.push((*time, present))?;
    }
    Ok(pairs)
}

/// The changes of a level that toggles at these times, as pairs with levels of 4 bytes.
pub(crate) fn short_pairs_of(
    alloc: Global,
    level: u64,
    times: &[u32],
) -> Result<Vec<(u32, u32)>, AllocError>
    ensures { IfOk result (λ pairs. pairs.items ≡ toggle_changes level times.now) }
{
    let mut pairs = Vec::with_capacity(alloc, times.len())?;
    let mut present = level;
    for time in times {
        present = 1u64.saturating_sub(present);
        pairs.push((*time, present as u32))?;
    }
    Ok(pairs)
}

/// These pairs with levels of 8 bytes.
pub(crate) fn long_pairs(alloc: Global, short: &[(u32, u32)]) -> Result<Vec<(u32, u64)>, AllocError>
    ensures { IfOk result (λ pairs. pairs.items ≡ short.now) }
{
    let mut pairs = Vec::with_capacity(alloc, short.len())?;
    for (time, level) in short {
        pairs.push((*time, u64::from(*level)))?;
    }
    Ok(pairs)
}
