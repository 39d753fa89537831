//! The command `desk`.
ghost use Rattle.std.specs.Prelude.{◌≡◌, ◌≤◌, length, IfOk, IfSome, is_some, true};
ghost use Rattle.mp_commands.specs.Names.{lines_of, first_part, lines_of_each, opening_of};
ghost use Rattle.mp_commands.specs.Desks.{IsDeskText, blocks_of, has_valid_desk};

use crate::command_runs::{InputCommand, Options, RunFault, opened};
use crate::meeting_faults::fault_of_meeting;
use crate::outcome_lines::put_outcome;
use crate::sessions::{Sessions, open_session};
use mp_desk::DeskSize;
use mp_phase::Crew;
use mp_streams::{Out, Sink};
use mp_text::{divided, parts};
use std::alloc::{AllocError, Global};
use std::sync::Wait;
use std::thread::Threads;

/// The input is a netlist's text and, behind each line `---`, a designer's block of lines. The designers submit their lines at the same
/// time, each in turn, while viewers read. Then a line for each designer is written, a line for each viewer, and the lines of the waves of
/// the netlist to which the accepted edits led.
#[derive(Drop)]
pub struct DeskCommand<P: Sessions + Drop> {
    pub sessions: P,
}

impl<P: Sessions + Drop> InputCommand for DeskCommand<P> {
    ghost opening = { λ _ input options. opening_of (first_part (lines_of input)) (has_valid_desk (length (blocks_of input)) options) };

    ghost IsText = { λ _ input options n text. IsDeskText n (blocks_of input) options.viewers text };

    ghost seats = { true };

    fn answer<R: Threads + Wait + Sync, T: Sink>(
        &self,
        rt: &R,
        alloc: Global,
        out: &mut Out<T>,
        input: Vec<u8>,
        options: &Options,
    ) -> Result<(), RunFault> {
        let text = input.as_slice();
        let (front, blocks) = split(alloc, text)?;
        let size = desk_crew(options, blocks.len());
        let (netlist, (crew, size)) = opened(alloc, options.keys, front, size)?;
        let session = open_session(&self.sessions, rt, alloc, netlist, crew)?;
        match P::meet(rt, alloc, session, blocks.as_slice(), size) {
            Ok(outcome) => Ok(put_outcome(out, &outcome, crew)?),
            Err(fault) => Err(fault_of_meeting(fault)),
        }
    }
}

/// The crew and the size of a desk with this number of designers, if there are 1 to 8 of them, 1 to 32 viewers and a valid crew.
fn desk_crew(options: &Options, designers: usize) -> Option<(Crew, DeskSize)>
    ensures valid { is_some result ≡ has_valid_desk designers options.now }
    ensures size { IfSome result (λ both. (both.1.designers ≡ designers) × (both.1.viewers ≡ options.now.viewers)) }
{
    let size = DeskSize::new(designers, options.viewers as usize).ok()?;
    Some((options.crew()?, size))
}

/// The netlist's part of an input, and the blocks.
fn split(alloc: Global, input: &[u8]) -> Result<(&[u8], Vec<&[u8]>), AllocError>
    ensures short { IfOk result (λ both. length both.0.now ≤ length input.now) }
    ensures front { IfOk result (λ both. lines_of both.0.now ≡ first_part (lines_of input.now)) }
    ensures blocks { IfOk result (λ both. lines_of_each both.1.items ≡ blocks_of input.now) }
{
    let (front, back) = divided(alloc, input)?;
    if front.len() >= input.len() {
        return Ok((front, Vec::new(alloc)));
    }
    Ok((front, parts(alloc, back)?))
}
