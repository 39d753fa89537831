//! The answers to questions.
ghost use Rattle.std.specs.Prelude.{◌≡◌};
ghost use Rattle.mp_commands.specs.answers.Names.{wire_named, Writes, missing_at};
ghost use Rattle.mp_streams.specs.WriteErrors.{Writes as WritesAll};
ghost use Rattle.mp_commands.specs.views.Views.{view_text, view_wires};
ghost use Rattle.mp_commands.specs.answers.Answers.{asked_text, wire_text, version_text, edits_text, answer_text, asked_answer};

use crate::answers::asked::AskedAnswer;
use crate::answers::edit_answers::put_edits;
use crate::answers::short_replies::{put_refused, put_unread};
use crate::answers::snapshot::Snapshot;
use crate::answers::work_lines::put_work_lines;
use crate::views::{View, put_wave_line};
use mp_netlist::{EditError, Name};
use mp_streams::{Failed, Out, Sink, Text, WriteError};
use mp_text::{LineError, Question, put_netlist};
use mp_version::Version;
use std::alloc::Global;
use std::thread::Threads;

/// Writes the answer to a question, as it is made: so no answer takes memory for its length.
pub fn put_answer<R: Threads + Sync, T: Sink>(
    rt: &R,
    alloc: Global,
    out: &mut Out<T>,
    of: &Snapshot<'_>,
    question: &Question,
) -> Result<(), WriteError>
    ensures { WritesAll result out.old out.new (answer_text of.now question.now) }
{
    put_asked(rt, alloc, out, of, &AskedAnswer::of_question(question))
}

/// Writes what is asked for.
fn put_asked<R: Threads + Sync, T: Sink>(
    rt: &R,
    alloc: Global,
    out: &mut Out<T>,
    of: &Snapshot<'_>,
    asked: &AskedAnswer<'_>,
) -> Result<(), WriteError>
    ensures { WritesAll result out.old out.new (asked_answer asked.now of.now) }
{
    match asked {
        AskedAnswer::View(view) => put_view(rt, alloc, out, of, view),
        AskedAnswer::Wire(name) => Ok(put_wire(out, of, name)?),
        AskedAnswer::Netlist => Ok(put_netlist(out, of.netlist())?),
        AskedAnswer::Work => put_work_lines(out, of.netlist(), of.work),
        AskedAnswer::Version => Ok(("version ", of.version.number(), "\n").put_to(out)?),
        AskedAnswer::Edits { from } => Ok(put_edits_from(out, of.version, *from)?),
    }
}

/// Writes a view, or that a wire of it doesn't stand.
fn put_view<R: Threads + Sync, T: Sink>(
    rt: &R,
    alloc: Global,
    out: &mut Out<T>,
    of: &Snapshot<'_>,
    view: &View<'_>,
) -> Result<(), WriteError>
    ensures { WritesAll result out.old out.new (asked_text (missing_at of.now.netlist (view_wires view.now)) (view_text view.now of.now.netlist)) }
{
    match view.missing(of.netlist()) {
        None => view.put(rt, alloc, out, &of.evaluated()),
        Some(_) => Ok(put_refused(out, EditError::NoSuchWire)?),
    }
}

/// Writes the line of the wire that has the name.
fn put_wire<T: Sink>(out: &mut Out<T>, of: &Snapshot<'_>, name: &Name) -> Result<(), Failed>
    ensures { Writes result out.old out.new (wire_text of.now.netlist (wire_named of.now.netlist name.now)) }
{
    match of.netlist().wire_named(name.as_str()) {
        Some(id) => put_wave_line(out, &of.evaluated(), id),
        None => put_refused(out, EditError::NoSuchWire),
    }
}

/// Writes the accepted edits from a number on, or that this is no number of an edit.
fn put_edits_from<T: Sink>(out: &mut Out<T>, version: &Version, from: u64) -> Result<(), Failed>
    ensures { Writes result out.old out.new (edits_text version.now.edits from) }
{
    if from < 1 || from > u64::from(version.number()) + 1 {
        return put_unread(out, LineError::BadNumber);
    }
    put_edits(out, version.edits(), (from - 1) as u32)
}
