//! The lines of work.
ghost use Rattle.std.specs.Prelude.{◌≡◌};
ghost use Rattle.mp_commands.specs.answers.Names.{Writes};
ghost use Rattle.mp_streams.specs.WriteErrors.{Writes as WritesAll};
ghost use Rattle.mp_commands.specs.answers.WorkLines.{entry_line, work_text};

use mp_depend::{Work, WorkEntry};
use mp_netlist::Netlist;
use mp_streams::{Failed, Out, Sink, Text, WriteError};

/// Writes a line for each entry of work, `MODULE FROM TO`, as it comes: the module works from the unit FROM to before the unit TO. An entry whose
/// module doesn't exist has no line.
#[tactic(auto, using(crate::proofs::lemmas::answers::EditAnswerLemmas::lines_left_steps))]
pub fn put_work_lines<T: Sink>(
    out: &mut Out<T>,
    netlist: &Netlist,
    work: &Work,
) -> Result<(), WriteError>
    ensures { WritesAll result out.old out.new (work_text netlist.now work.now) }
{
    let mut entries = work.entries()?;
    while let Some(entry) = entries.next() {
        put_entry(out, netlist, &entry)?;
    }
    Ok(())
}

/// Writes the line of an entry.
fn put_entry<T: Sink>(out: &mut Out<T>, netlist: &Netlist, entry: &WorkEntry) -> Result<(), Failed>
    ensures { Writes result out.old out.new (entry_line netlist.now entry.now) }
{
    let Some(part) = netlist.module(entry.module) else {
        return Ok(());
    };
    let name = part.name.as_str();
    (name, (" ", entry.from), ((" ", entry.to), "\n")).put_to(out)
}
