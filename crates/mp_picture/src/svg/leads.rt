//! The lines that lead from marks to wires.
ghost use Rattle.std.specs.Prelude.{◌≡◌, ◌+◌, ◌<◌, ◌≤◌, ◌^◌, All, IsTrue, Some, length};
ghost use Rattle.std.specs.List.{flat_map};
ghost use Rattle.mp_streams.specs.Outgoing.{Writes};
ghost use Rattle.mp_records.specs.declared.ports.Input.{Input as Read};
ghost use Rattle.mp_model.specs.declared.finding.Finding.{Finding as Found};
ghost use Rattle.mp_netlist.specs.Circuit.{module_at, bundle_at};
ghost use Rattle.mp_picture.specs.Found.{is_within};
ghost use Rattle.mp_picture.specs.svg.FoundGroups.{lead_x, lead_to, module_leads, bundle_leads, place_leads, lead, leads, lead_group};

use crate::svg::frame::Frame;
use crate::svg::lane::Lane;
use crate::svg::mark_rows::MarkRows;
use crate::svg::wire_rows::WireRows;
use mp_model::{Finding, Place};
use mp_netlist::{BundleId, Input, ModuleId, Netlist, WireId};
use mp_streams::{Failed, Out, Sink, Text};

/// The beginning of a line, and the wires whose rows it may lead to.
#[derive(Clone, Copy)]
struct Start<'a> {
    frame: Frame,
    wires: &'a WireRows,
    x: u64,
    y: u64,
    ghost low: { x < 2 ^ 63 },
}

/// A line from a point up to the row of a wire, if it has one, with a stroke across its end.
#[derive(Clone, Copy)]
struct Lead<'a> {
    start: Start<'a>,
    wire: WireId,
}

impl<'a> Text for Lead<'a> {
    ghost use Rattle.mp_picture.specs.svg.FoundGroups.{lead_to};

    ghost text = { λ line. lead_to line.start.frame line.start.wires.now line.start.x line.start.y line.wire };

    fn put_to<S: Sink>(&self, out: &mut Out<S>) -> Result<(), Failed> {
        let (x, y) = (self.start.x, self.start.y);
        let row = self.start.wires.row_of(self.wire);
        if row >= self.start.wires.len() {
            return Ok(());
        }
        let end = self.start.frame.lane(row).middle();
        let stroke = (("M", x.saturating_sub(3), " ", end), ("H", x + 3));
        (("M", x, " ", y), ("V", end), stroke).put_to(out)
    }
}

/// Writes the lines of the marks of all findings, to the rows of these wires.
pub(crate) fn put_lead_group<S: Sink>(
    out: &mut Out<S>,
    netlist: &Netlist,
    frame: Frame,
    wires: &WireRows,
    rows: &MarkRows,
    found: &[Finding],
) -> Result<(), Failed>
    requires few { length wires.now + length rows.now < 2 ^ 32 }
    requires within { All (λ (f : Found). IsTrue (is_within frame.columns f)) found.now }
    ensures { Writes result out.old out.new (lead_group netlist.now frame wires.now rows.now found.now) }
{
    out.put_text("<g class=\"leads\">")?;
    put_leads(out, netlist, frame, wires, rows, found)?;
    out.put_text("</g>\n")
}

fn put_leads<S: Sink>(
    out: &mut Out<S>,
    netlist: &Netlist,
    frame: Frame,
    wires: &WireRows,
    rows: &MarkRows,
    found: &[Finding],
) -> Result<(), Failed>
    requires few { length wires.now + length rows.now < 2 ^ 32 }
    requires within { All (λ (f : Found). IsTrue (is_within frame.columns f)) found.now }
    ensures { Writes result out.old out.new (leads netlist.now frame wires.now rows.now found.now) }
{
    let first = wires.len();
    for &finding in found {
        let lane = frame.lane(first + rows.row_of(finding));
        put_lead(out, netlist, frame, wires, lane, finding)?;
    }
    Ok(())
}

/// Writes the line of a finding's mark in a row.
fn put_lead<S: Sink>(
    out: &mut Out<S>,
    netlist: &Netlist,
    frame: Frame,
    wires: &WireRows,
    lane: Lane,
    finding: Finding,
) -> Result<(), Failed>
    requires { IsTrue (is_within frame.columns finding) }
    ensures { Writes result out.old out.new (lead netlist.now frame wires.now lane finding) }
{
    let column = frame.columns.column_of(finding.time);
    let start = Start {
        frame,
        wires,
        x: lead_x(frame, column),
        y: lane.top() + 8,
    };
    out.put_text("<path d=\"")?;
    put_place_leads(out, netlist, start, finding.place)?;
    out.put_text("\"/>")
}

/// The x of the line of a mark in a column: the left edge of the column if it has one unit, and otherwise its middle.
pub(crate) fn lead_x(frame: Frame, column: u32) -> u64
    ensures value { result ≡ lead_x frame column }
    ensures low { result < 2 ^ 63 }
{
    if frame.columns.units == 1 {
        frame.x(column)
    } else {
        frame.x(column) + 4
    }
}

/// Writes the lines to the wires of a place.
fn put_place_leads<S: Sink>(
    out: &mut Out<S>,
    netlist: &Netlist,
    start: Start<'_>,
    place: Place,
) -> Result<(), Failed>
    ensures { Writes result out.old out.new (place_leads netlist.now start.entry.frame start.entry.wires.now start.entry.x start.entry.y place) }
{
    match place {
        Place::Module(id) => put_module_leads(out, netlist, start, id),
        Place::Bundle(id) => put_bundle_leads(out, netlist, start, id),
    }
}

fn put_module_leads<S: Sink>(
    out: &mut Out<S>,
    netlist: &Netlist,
    start: Start<'_>,
    id: ModuleId,
) -> Result<(), Failed>
    ensures { Writes result out.old out.new (module_leads start.entry.frame start.entry.wires.now start.entry.x start.entry.y (module_at netlist.now id.0)) }
{
    match netlist.module(id) {
        Some(found) => put_input_leads(out, start, found.inputs.as_slice()),
        None => Ok(()),
    }
}

fn put_input_leads<S: Sink>(
    out: &mut Out<S>,
    start: Start<'_>,
    inputs: &[Input],
) -> Result<(), Failed>
    ensures { Writes result out.old out.new (flat_map (λ (input : Read). lead_to start.entry.frame start.entry.wires.now start.entry.x start.entry.y input.wire) inputs.now) }
{
    for input in inputs {
        let wire = input.wire;
        Lead { start, wire }.put_to(out)?;
    }
    Ok(())
}

fn put_bundle_leads<S: Sink>(
    out: &mut Out<S>,
    netlist: &Netlist,
    start: Start<'_>,
    id: BundleId,
) -> Result<(), Failed>
    ensures { Writes result out.old out.new (bundle_leads start.entry.frame start.entry.wires.now start.entry.x start.entry.y (bundle_at netlist.now id.0)) }
{
    let Some(found) = netlist.bundle(id) else {
        return Ok(());
    };
    let request = Lead {
        start,
        wire: found.request,
    };
    let acknowledge = Lead {
        start,
        wire: found.acknowledge,
    };
    let payload = Lead {
        start,
        wire: found.payload,
    };
    (request, acknowledge, payload).put_to(out)
}
