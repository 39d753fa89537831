//! What a command is, and how it is run.
ghost use Rattle.std.specs.Prelude.{◌≡◌, ◌≤◌};
ghost use Rattle.mp_commands.specs.command_runs.Clauses.{ℕ, Bool, List, [], length, Result, OnOk, IsSync, Circuit, Options, RunFault, max_input, within_size, counted_reads, Ran, RanFrom, TakesInput};

use crate::command_runs::input::read_input;
use crate::command_runs::options::Options;
use crate::command_runs::run_fault::RunFault;
use mp_streams::{Out, Sink, Source};
use std::alloc::Global;
use std::sync::Wait;
use std::thread::Threads;

/// What is asked of an input.
pub trait InputCommand {
    // The netlist that an input opens with, or why it doesn't open.
    ghost opening: { Self → List ℕ → Options → Result Circuit RunFault };

    // The texts that may be written for an input that opened with this netlist.
    ghost IsText: { Self → List ℕ → Options → Circuit → List ℕ → Type 0 };

    // Whether there are designers and viewers, so that `NoPlace` may come.
    ghost seats: { Bool };

    /// Opens the input, which is no longer than an input may be, and writes the command's text. A command lets its input go when it needs
    /// that no more. The clause `shared` says what the bound
    /// `Sync` says: in a trait the prover asks for both.
    fn answer<R: Threads + Wait + Sync, T: Sink>(
        &self,
        rt: &R,
        alloc: Global,
        out: &mut Out<T>,
        input: Vec<u8>,
        options: &Options,
    ) -> Result<(), RunFault>
        requires size { length input.items ≤ max_input }
        requires shared { IsSync R.row }
        ensures { Ran seats result (opening self.now input.items options.now) (IsText self.now input.items options.now) out.old out.new };
}

/// Reads an input, all of it first, and writes what the command makes of it.
///
/// `ReadFailed` comes if the source fails; then `Text` if the input is too long or the netlist's text is not read; `BadCount` if the options have no
/// valid crew, and for a desk if there are not 1 to 8 blocks or not 1 to 32 viewers; and `NoPlace` if a designer or a viewer finds no place at a
/// desk: then nothing is written. `WriteFailed` comes with a fault of the sink, and `OutOfMemory` if memory runs out: then nothing, or a part of the
/// text from its front, is written.
pub fn run_command<R: Threads + Wait + Sync, S: Source, T: Sink, C: InputCommand>(
    rt: &R,
    alloc: Global,
    source: &mut S,
    out: &mut Out<T>,
    options: &Options,
    command: &C,
) -> Result<(), RunFault>
    requires { out.old.held ≡ [] }
    ensures written { RanFrom result (S.left source.old) (λ input. Ran C.seats result (within_size (λ i. C.opening command.now i options.now) input) (C.IsText command.now input options.now) out.old out.new) out.old out.new }
    ensures all { OnOk result (out.new.held ≡ []) }
    ensures taken { TakesInput (S.left source.old) (S.left source.new) }
    ensures read_faults { S.fault_count source.new ≡ counted_reads result (S.fault_count source.old) }
{
    let input = read_input(alloc, source)?;
    match command.answer(rt, alloc, out, input, options) {
        Ok(()) => Ok(out.flush()?),
        Err(RunFault::OutOfMemory) => {
            // what was written before memory ran out is seen
            out.flush()?;
            Err(RunFault::OutOfMemory)
        }
        Err(fault) => Err(fault),
    }
}
