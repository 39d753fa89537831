//! The lines of a meeting.
ghost use Rattle.std.specs.Prelude.{◌≡◌, ℕ, List, Ok};
ghost use Rattle.mp_commands.specs.Names.{replay, present, Writes, lines_from};
ghost use Rattle.mp_commands.specs.Desks.{tally_line, viewer_line, outcome_text};

use crate::views::{Evaluated, put_wave_lines};
use mp_meeting::{DeskOutcome, Tally};
use mp_phase::Crew;
use mp_streams::{Failed, Out, Sink, Text};
use mp_version::EditSession;

/// Writes a line for each designer, a line for each viewer, and the lines of the waves after the meeting.
pub fn put_outcome<S: EditSession, T: Sink>(
    out: &mut Out<T>,
    outcome: &DeskOutcome<S>,
    crew: Crew,
) -> Result<(), Failed>
    ensures replayed { replay (S.story outcome.now.session).base (S.story outcome.now.session).edits ≡ Ok (present (S.story outcome.now.session)) }
    ensures written { Writes result out.old out.new (outcome_text outcome.now.tallies.items outcome.now.numbers.items (present (S.story outcome.now.session))) }
{
    let version = outcome.session.version();
    let of = Evaluated {
        netlist: version.now(),
        waves: version.waves(),
        crew,
    };
    put_lines(out, outcome.tallies.as_slice())?;
    put_lines(out, outcome.numbers.as_slice())?;
    put_wave_lines(out, &of)
}

/// What has a line in which it is numbered.
trait NumberedLine {
    // Its line under a number.
    ghost line: { ℕ → Self → List ℕ };

    fn put_line<T: Sink>(&self, out: &mut Out<T>, number: u64) -> Result<(), Failed>
        ensures { Writes result out.old out.new (line number self.now) };
}

/// The line of a designer.
impl NumberedLine for Tally {
    ghost line = { tally_line };

    fn put_line<T: Sink>(&self, out: &mut Out<T>, number: u64) -> Result<(), Failed> {
        let counts = (self.accepted, " refused ", (self.refused, "\n"));
        ("designer ", number, " accepted ", counts).put_to(out)
    }
}

/// The line of a viewer who saw this number of edits.
impl NumberedLine for u32 {
    ghost line = { viewer_line };

    fn put_line<T: Sink>(&self, out: &mut Out<T>, number: u64) -> Result<(), Failed> {
        ("viewer ", number, " saw ", (*self, "\n")).put_to(out)
    }
}

/// Writes the line of each, counted from 1.
fn put_lines<L: NumberedLine, T: Sink>(out: &mut Out<T>, things: &[L]) -> Result<(), Failed>
    ensures { Writes result out.old out.new (lines_from L.line 1 things.now) }
{
    for place in 0..things.len() {
        things[place].put_line(out, place as u64 + 1)?;
    }
    Ok(())
}
