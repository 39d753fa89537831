//! Takes all that a source has.
ghost use Rattle.std.specs.Prelude.{◌≡◌, ◌<◌, ◌≤◌, length, take, IfOk, IfSome, OnOk, OnErr};
ghost use Rattle.std.specs.Io.KnownBytes.{Consumes, IsAtEnd};
ghost use Rattle.mp_streams.specs.StreamBytes.{ConsumesUpTo, TakesMore};
ghost use Rattle.mp_streams.specs.TakeErrors.{counted_take};

use crate::source::Source;
use crate::take_error::TakeError;
use std::alloc::Global;

/// Takes all bytes that are left, up to the limit. `Failed` comes with the first fault of the source, and `OutOfMemory` if there is no memory for the
/// bytes; some bytes, up to the limit, may have been taken then.
#[tactic(auto, using(crate::proofs::StreamLemmas::taken_front))]
pub fn take_all<S: Source>(
    alloc: Global,
    source: &mut S,
    limit: usize,
) -> Result<Vec<u8>, TakeError>
    ensures taken { IfOk result (λ text. Consumes (S.left source.old) (S.left source.new) text.items) }
    ensures limit { IfOk result (λ text. length text.items ≤ limit) }
    ensures end { IfOk result (λ text. length text.items < limit → IsAtEnd (S.left source.new)) }
    ensures front { IfOk result (λ text. IfSome (S.left source.old) (λ bytes. text.items ≡ take limit bytes)) }
    ensures err { OnErr result (ConsumesUpTo limit (S.left source.old) (S.left source.new)) }
    ensures faults { S.fault_count source.new ≡ counted_take result (S.fault_count source.old) }
{
    let mut text = Vec::new(alloc);
    take_more(source, &mut text, limit)?;
    Ok(text)
}

/// Appends all bytes that are left, up to so many. The errors are those of `take_all`; the text may have some more bytes then.
pub fn take_more<S: Source>(
    source: &mut S,
    text: &mut Vec<u8>,
    most: usize,
) -> Result<(), TakeError>
    ensures more { OnOk result (TakesMore most (S.left source.old) (S.left source.new) text.old.items text.new.items) }
    ensures err { OnErr result (ConsumesUpTo most (S.left source.old) (S.left source.new)) }
    ensures faults { S.fault_count source.new ≡ counted_take result (S.fault_count source.old) }
{
    let mut room = [0; 4096];
    let mut left = most;
    while left > 0 {
        let size = room.len().min(left);
        let count = source.take(&mut room[..size])?;
        if count == 0 {
            break;
        }
        text.extend_from_slice(&room[..count])?;
        left -= count;
    }
    Ok(())
}
