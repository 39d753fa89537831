//! The input of a run.
ghost use Rattle.std.specs.Prelude.{◌≡◌, ◌+◌, ◌≤◌};
ghost use Rattle.mp_commands.specs.command_runs.Clauses.{length, IfOk, IfErr, IfSome, counted_take, text_limit, max_input, taken_of, counted_reads, IsInput, StaysUnread, TakesInput};

use crate::command_runs::run_fault::RunFault;
use mp_streams::{Source, TakeError, take_all, take_more};
use mp_text::{MAX_SHORT_TEXT, TextCode, TextError, text_limit};
use std::alloc::Global;

/// Reads an input, all that the source has. `ReadFailed` comes if the source fails, `Text` if the input is longer than its format allows, and
/// `OutOfMemory` if memory runs out.
pub(crate) fn read_input<S: Source>(alloc: Global, source: &mut S) -> Result<Vec<u8>, RunFault>
    ensures input { IfOk result (λ input. IsInput (S.left source.old) input.items) }
    ensures within { IfOk result (λ input. length input.items ≤ text_limit input.items) }
    ensures short { IfOk result (λ input. length input.items ≤ max_input) }
    ensures refused { IfErr result (StaysUnread (S.left source.old)) }
    ensures taken { TakesInput (S.left source.old) (S.left source.new) }
    ensures read_faults { S.fault_count source.new ≡ counted_reads result (S.fault_count source.old) }
{
    let input = take_input(alloc, source)?;
    let limit = text_limit(input.as_slice());
    if input.len() > limit {
        return Err(RunFault::Text(TextError {
            line: 0,
            code: TextCode::TooLong,
        }));
    }
    Ok(input)
}

/// Takes the input of a run: all that the source has, but no more than as many bytes as a text may have that begins so, and one more, by which it is
/// known to be too long. `Failed` comes with the first fault of the source, `OutOfMemory` if the memory for the bytes is refused.
#[tactic(auto, using(crate::proofs::lemmas::command_runs::InputLemmas::take_steps))]
fn take_input<S: Source>(alloc: Global, source: &mut S) -> Result<Vec<u8>, TakeError>
    ensures within { IfOk result (λ input. length input.items ≤ text_limit input.items + 1) }
    ensures front { IfOk result (λ input. IfSome (S.left source.old) (λ bytes. input.items ≡ taken_of bytes)) }
    ensures taken { TakesInput (S.left source.old) (S.left source.new) }
    ensures faults { S.fault_count source.new ≡ counted_take result (S.fault_count source.old) }
{
    let mut input = take_all(alloc, source, MAX_SHORT_TEXT + 1)?;
    let limit = text_limit(input.as_slice());
    if input.len().min(limit) <= MAX_SHORT_TEXT {
        return Ok(input);
    }
    take_more(source, &mut input, limit - MAX_SHORT_TEXT)?;
    Ok(input)
}
