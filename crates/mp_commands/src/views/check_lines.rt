//! Whether a netlist works.
ghost use Rattle.mp_streams.specs.WriteErrors.{Writes};
ghost use Rattle.mp_commands.specs.views.Checks.{check_of};

use crate::views::evaluated::Evaluated;
use mp_check::{CheckAsked, check, put_check};
use mp_streams::{Out, Sink, WriteError};
use std::alloc::Global;
use std::thread::Threads;

/// Writes what is asked for of what is found in a netlist, data that are late, deadlocks, and notes.
pub(crate) fn put_check_lines<R: Threads + Sync, T: Sink>(
    rt: &R,
    alloc: Global,
    out: &mut Out<T>,
    of: &Evaluated<'_>,
    asked: CheckAsked<'_>,
) -> Result<(), WriteError>
    ensures { Writes result out.old out.new (check_of asked.entry of.now.netlist.now) }
{
    let found = check(rt, alloc, of.netlist, of.waves, of.threads())?;
    put_check(alloc, out, of.netlist, of.waves, &found, asked)
}
