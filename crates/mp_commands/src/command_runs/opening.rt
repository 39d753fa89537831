//! The netlist that an input opens with.
ghost use Rattle.std.specs.Prelude.{◌≡◌, ◌≤◌};
ghost use Rattle.mp_commands.specs.command_runs.Clauses.{length, false, is_some, Some, Ok, IfOk, IfErr, lines_of, max_input, opening_with, StaysShutBy, StaysShutWith, opening_at, opening_of, counted_reads, HasInput, Refuses, TakesInput};

use crate::command_runs::input::read_input;
use crate::command_runs::run_fault::RunFault;
use mp_check::missing_place;
use mp_netlist::{Name, Netlist};
use mp_phase::Crew;
use mp_streams::Source;
use mp_text::read_lines;
use std::alloc::Global;
use std::hash::RandomState;

/// Reads the text of a netlist, all that the source has. `ReadFailed` comes if the source fails; then `Text` if the input is too long or the text is
/// not read, `BadCount` if there is no crew, and `OutOfMemory` if memory runs out.
pub fn read_opening<S: Source, C: Drop>(
    alloc: Global,
    keys: RandomState,
    source: &mut S,
    crew: Option<C>,
) -> Result<(Netlist, C), RunFault>
    ensures opened { IfOk result (λ both. HasInput (S.left source.old) (λ input. opening_with (is_some crew) input ≡ Ok both.0)) }
    ensures crew { IfOk result (λ both. crew ≡ Some both.1) }
    ensures refused { IfErr result (StaysShutWith (S.left source.old) (is_some crew)) }
    ensures taken { TakesInput (S.left source.old) (S.left source.new) }
    ensures read_faults { S.fault_count source.new ≡ counted_reads result (S.fault_count source.old) }
{
    let input = read_input(alloc, source)?;
    opened_input(alloc, keys, input, crew)
}

/// Reads the text of a netlist as `read_opening`. Then `NoSuchPlace` comes for the first of the names that neither a module nor a bundle has.
pub(crate) fn read_opening_at<S: Source>(
    alloc: Global,
    keys: RandomState,
    source: &mut S,
    crew: Option<Crew>,
    names: &[Name],
) -> Result<(Netlist, Crew), RunFault>
    ensures opened { IfOk result (λ both. HasInput (S.left source.old) (λ input. opening_at names.now (is_some crew) input ≡ Ok both.0)) }
    ensures crew { IfOk result (λ both. crew ≡ Some both.1) }
    ensures refused { IfErr result (StaysShutBy (S.left source.old) (opening_at names.now (is_some crew))) }
    ensures taken { TakesInput (S.left source.old) (S.left source.new) }
    ensures read_faults { S.fault_count source.new ≡ counted_reads result (S.fault_count source.old) }
{
    let (netlist, crew) = read_opening(alloc, keys, source, crew)?;
    match missing_place(&netlist, names) {
        None => Ok((netlist, crew)),
        Some(place) => {
            drop(netlist);
            Err(RunFault::NoSuchPlace(place))
        }
    }
}

/// The netlist of a text, with a crew for it. If there is none `BadCount` comes, after the faults of the text.
pub fn opened<C: Drop>(
    alloc: Global,
    keys: RandomState,
    text: &[u8],
    crew: Option<C>,
) -> Result<(Netlist, C), RunFault>
    requires { length text.now ≤ max_input }
    ensures netlist { IfOk result (λ both. opening_of (lines_of text.now) (is_some crew) ≡ Ok both.0) }
    ensures crew { IfOk result (λ both. crew ≡ Some both.1) }
    ensures refused { IfErr result (Refuses false (opening_of (lines_of text.now) (is_some crew))) }
{
    let netlist = read_lines(alloc, keys, text)?;
    match crew {
        Some(crew) => Ok((netlist, crew)),
        None => {
            drop(netlist);
            Err(RunFault::BadCount)
        }
    }
}

/// The netlist of an input, with a crew for it, as `opened`. The input is let go, since a run wants the memory that it has.
pub(crate) fn opened_input<C: Drop>(
    alloc: Global,
    keys: RandomState,
    input: Vec<u8>,
    crew: Option<C>,
) -> Result<(Netlist, C), RunFault>
    requires { length input.items ≤ max_input }
    ensures netlist { IfOk result (λ both. opening_of (lines_of input.items) (is_some crew) ≡ Ok both.0) }
    ensures crew { IfOk result (λ both. crew ≡ Some both.1) }
    ensures refused { IfErr result (Refuses false (opening_of (lines_of input.items) (is_some crew))) }
{
    opened(alloc, keys, input.as_slice(), crew)
}
