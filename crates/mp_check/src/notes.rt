//! What is to be noted of wires.
ghost use Rattle.std.specs.Prelude.{◌≡◌, ◌<◌, [], Some, if◌then◌else◌, length};
ghost use Rattle.mp_streams.specs.Outgoing.{Writes};
ghost use Rattle.mp_netlist.specs.declared.driver.Driver.TheVariants.{Port};
ghost use Rattle.mp_netlist.specs.Circuit.{module_at, wire_at};
ghost use Rattle.mp_netlist.specs.Drivers.{driver};
ghost use Rattle.mp_check.specs.Notes.{becomes_note, driver_note, is_read, note_line, nothing_note, port_note, stimulus_note, wire_note, wire_notes};
ghost use Rattle.mp_check.specs.CheckTexts.{selected_notes};
ghost use Rattle.mp_check.specs.ReadWires.{AreRead};
ghost use Rattle.mp_check.specs.Selections.{has_none, selected};

use crate::busy::put_bundle_notes;
use crate::module_end::output_at;
use crate::read_wires::is_marked;
use crate::run_end::RunEnd;
use crate::selection::Selection;
use mp_netlist::{Driver, ModuleId, WireId, WireRecord};
use mp_streams::{Failed, Out, Sink, Text};

/// Writes the notes on wires, if no names are selected, and then those on the bundles that are. The marks say which wires are read.
pub(crate) fn put_notes<S: Sink>(
    out: &mut Out<S>,
    end: &RunEnd<'_>,
    read: &[bool],
    selection: Selection<'_>,
) -> Result<(), Failed>
    requires { AreRead end.now.at.netlist.now read.now }
    ensures { Writes result out.old out.new (selected_notes end.now.at.netlist.now (selected selection.entry)) }
{
    put_all_wires(out, end, read, selection)?;
    put_bundle_notes(out, end, selection)
}

/// Writes the notes on wires, if no names are selected.
fn put_all_wires<S: Sink>(
    out: &mut Out<S>,
    end: &RunEnd<'_>,
    read: &[bool],
    selection: Selection<'_>,
) -> Result<(), Failed>
    requires { AreRead end.now.at.netlist.now read.now }
    ensures { Writes result out.old out.new (if has_none selection.entry.names.now then wire_notes end.now.at.netlist.now else []) }
{
    if !selection.has_all() {
        return Ok(());
    }
    put_wire_notes(out, end, read)
}

/// Writes the note on each wire by number.
fn put_wire_notes<S: Sink>(out: &mut Out<S>, end: &RunEnd<'_>, read: &[bool]) -> Result<(), Failed>
    requires { AreRead end.now.at.netlist.now read.now }
    ensures { Writes result out.old out.new (wire_notes end.now.at.netlist.now) }
{
    for number in 0..end.at.netlist.wire_slots() {
        put_wire(out, end, read, WireId(number))?;
    }
    Ok(())
}

/// Writes the note on a wire, if there is one.
fn put_wire<S: Sink>(
    out: &mut Out<S>,
    end: &RunEnd<'_>,
    read: &[bool],
    wire: WireId,
) -> Result<(), Failed>
    requires within { wire.0 < length end.now.at.netlist.now.wires }
    requires read { AreRead end.now.at.netlist.now read.now }
    ensures { Writes result out.old out.new (wire_note end.now.at.netlist.now wire.0) }
{
    match end.at.netlist.wire(wire) {
        Some(found) => put_note(out, end, wire, found, is_marked(read, wire)),
        None => Ok(()),
    }
}

fn put_note<S: Sink>(
    out: &mut Out<S>,
    end: &RunEnd<'_>,
    wire: WireId,
    found: &WireRecord,
    has_reader: bool,
) -> Result<(), Failed>
    requires stands { wire_at end.now.at.netlist.now wire.0 ≡ Some found.now }
    requires read { has_reader ≡ is_read end.now.at.netlist.now wire.0 }
    ensures { Writes result out.old out.new (driver_note end.now.at.netlist.now wire.0 found.now (driver end.now.at.netlist.now wire.0)) }
{
    match end.driver_of(wire) {
        Driver::Port(id, port) => put_port(out, end, wire, found, id, port),
        Driver::Nothing => put_undriven(out, found, has_reader),
        Driver::Stimulus => put_unread(out, found, has_reader),
    }
}

/// Writes that nothing drives a wire, and whether anything reads it.
fn put_undriven<S: Sink>(
    out: &mut Out<S>,
    found: &WireRecord,
    has_reader: bool,
) -> Result<(), Failed>
    ensures { Writes result out.old out.new (nothing_note found.now has_reader) }
{
    if has_reader {
        return put_line(out, found, &" is read, and nothing drives it");
    }
    put_line(out, found, &" is unused")
}

/// Writes that nothing reads a wire with a stimulus, if nothing does.
fn put_unread<S: Sink>(out: &mut Out<S>, found: &WireRecord, has_reader: bool) -> Result<(), Failed>
    ensures { Writes result out.old out.new (stimulus_note found.now has_reader) }
{
    if has_reader {
        return Ok(());
    }
    put_line(out, found, &" has a stimulus, and nothing reads it")
}

/// Writes that a wire has another level than the declared one from the delay of its port on, if it has.
fn put_port<S: Sink>(
    out: &mut Out<S>,
    end: &RunEnd<'_>,
    wire: WireId,
    found: &WireRecord,
    id: ModuleId,
    port: u32,
) -> Result<(), Failed>
    requires stands { wire_at end.now.at.netlist.now wire.0 ≡ Some found.now }
    requires driver { driver end.now.at.netlist.now wire.0 ≡ Port id port }
    ensures { Writes result out.old out.new (port_note end.now.at.netlist.now found.now id.0 port (module_at end.now.at.netlist.now id.0)) }
{
    // Its contract says that the netlist is well formed.
    let _horizon = end.at.netlist.horizon();
    let Some(part) = end.at.netlist.module(id) else {
        return Ok(());
    };
    let delay = output_at(part, port).delay;
    if delay > end.at.time {
        return Ok(());
    }
    let level = end.at.prompt(wire).level_at(delay);
    put_becomes(out, found, level, delay)
}

/// Writes that a wire has a level from a delay on, if that isn't the declared one.
fn put_becomes<S: Sink>(
    out: &mut Out<S>,
    found: &WireRecord,
    level: u64,
    delay: u32,
) -> Result<(), Failed>
    ensures { Writes result out.old out.new (becomes_note found.now level delay) }
{
    if level == found.initial {
        return Ok(());
    }
    let from = (level, " at ", delay);
    put_line(
        out,
        found,
        &(" is declared ", found.initial, " and becomes ", from),
    )
}

/// Writes the line of a note on a wire.
fn put_line<S: Sink, T: Text>(out: &mut Out<S>, found: &WireRecord, what: &T) -> Result<(), Failed>
    ensures { Writes result out.old out.new (note_line found.now.name (T.text what.now)) }
{
    ("note wire ", found.name.as_str(), (what, "\n")).put_to(out)
}
