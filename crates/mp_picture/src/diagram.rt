//! The timing diagram of a netlist.
ghost use Rattle.std.specs.Prelude.{◌≡◌, ◌≤◌, All, IsTrue};
ghost use Rattle.std.specs.List.{flat_map};
ghost use Rattle.mp_streams.specs.WriteErrors.{Writes};
ghost use Rattle.mp_model.specs.Waves.{AreWavesOf};
ghost use Rattle.mp_model.specs.Findings.{findings};
ghost use Rattle.mp_model.specs.declared.finding.Finding.{Finding as Found};
ghost use Rattle.mp_picture.specs.Diagrams.{diagram, diagram_given, rows, wire_line};
ghost use Rattle.mp_picture.specs.Found.{is_within, place_row};
ghost use Rattle.mp_picture.specs.MarkedColumns.{marked_row};
ghost use Rattle.mp_picture.specs.Rows.{ruler};

use crate::found::{found_within, push_place_row, rows_of};
use crate::layout::DiagramLayout;
use crate::margin::margin_of;
use crate::mark::Charset;
use crate::marked_columns::MarkedColumns;
use crate::picture::Picture;
use crate::row::push_wire_line;
use crate::ruler::push_ruler;
use mp_model::{Finding, Place};
use mp_netlist::{Netlist, WireId};
use mp_report::put_report;
use mp_streams::{Out, Sink, WriteError};
use std::alloc::Global;

/// Writes the timing diagram of a picture: the times, a row for each wire, a row for each module and bundle of which the report finds
/// something in the range, and the report's lines of these findings.
///
/// `WriteFailed` comes if the sink fails; then the sink has a beginning of what was held and of the diagram, and nothing is held. `OutOfMemory` comes
/// if memory runs out; then a beginning of the diagram is written. It takes memory for the findings in the range and for one row.
pub fn put_diagram<S: Sink>(
    alloc: Global,
    out: &mut Out<S>,
    picture: &Picture,
    charset: Charset,
) -> Result<(), WriteError>
    requires waves { AreWavesOf picture.now.netlist.now picture.now.waves.now }
    requires findings { picture.now.findings.now ≡ findings picture.now.netlist.now }
    requires within { picture.now.columns.to ≤ picture.now.netlist.now.horizon }
    ensures { Writes result out.old out.new (diagram picture.now.netlist.now picture.now.columns charset picture.now.numerals picture.now.wires.now) }
{
    let found = found_within(alloc, picture.findings, picture.columns)?;
    let put = put_given_found(alloc, out, picture, charset, found.as_slice());
    drop(found);
    put
}

/// Writes the timing diagram of a picture, given what is found in its range. Every row is made in the same room.
fn put_given_found<S: Sink>(
    alloc: Global,
    out: &mut Out<S>,
    picture: &Picture,
    charset: Charset,
    found: &[Finding],
) -> Result<(), WriteError>
    requires waves { AreWavesOf picture.now.netlist.now picture.now.waves.now }
    requires within { picture.now.columns.to ≤ picture.now.netlist.now.horizon }
    requires found { All (λ (f : Found). IsTrue (is_within picture.now.columns f)) found.now }
    ensures { Writes result out.old out.new (diagram_given picture.now.netlist.now picture.now.columns charset picture.now.numerals picture.now.wires.now found.now) }
{
    let places = rows_of(alloc, found)?;
    let layout = DiagramLayout {
        columns: picture.columns,
        charset,
        numerals: picture.numerals,
        margin: margin_of(picture.netlist, picture.wires, places.as_slice()),
    };
    let mut row = Vec::new(alloc);
    let put = put_rows(out, &mut row, picture, layout, places.as_slice(), found);
    drop(row);
    drop(places);
    put
}

/// Writes the times, the rows of the wires and of these places, and the report's lines of the findings.
fn put_rows<S: Sink>(
    out: &mut Out<S>,
    row: &mut Vec<u8>,
    picture: &Picture,
    layout: DiagramLayout,
    places: &[Place],
    found: &[Finding],
) -> Result<(), WriteError>
    requires waves { AreWavesOf picture.now.netlist.now picture.now.waves.now }
    requires within { layout.columns.to ≤ picture.now.netlist.now.horizon }
    requires found { All (λ (f : Found). IsTrue (is_within layout.columns f)) found.now }
    ensures { Writes result out.old out.new (rows picture.now.netlist.now layout picture.now.wires.now places.now found.now) }
{
    put_ruler(out, row, layout)?;
    put_wires(out, row, picture, layout)?;
    put_places(out, row, picture.netlist, layout, places, found)?;
    put_report(out, picture.netlist, found)?;
    Ok(())
}

/// Writes the line of times.
fn put_ruler<S: Sink>(
    out: &mut Out<S>,
    row: &mut Vec<u8>,
    layout: DiagramLayout,
) -> Result<(), WriteError>
    ensures { Writes result out.old out.new (ruler layout) }
{
    row.clear();
    push_ruler(row, layout)?;
    out.put_bytes(row.as_slice())?;
    Ok(())
}

/// Writes the rows of the wires.
fn put_wires<S: Sink>(
    out: &mut Out<S>,
    row: &mut Vec<u8>,
    picture: &Picture,
    layout: DiagramLayout,
) -> Result<(), WriteError>
    requires waves { AreWavesOf picture.now.netlist.now picture.now.waves.now }
    requires within { layout.columns.to ≤ picture.now.netlist.now.horizon }
    ensures { Writes result out.old out.new (flat_map (wire_line picture.now.netlist.now layout) picture.now.wires.now) }
{
    for &wire in picture.wires {
        put_wire(out, row, picture, layout, wire)?;
    }
    Ok(())
}

fn put_wire<S: Sink>(
    out: &mut Out<S>,
    row: &mut Vec<u8>,
    picture: &Picture,
    layout: DiagramLayout,
    wire: WireId,
) -> Result<(), WriteError>
    requires waves { AreWavesOf picture.now.netlist.now picture.now.waves.now }
    requires within { layout.columns.to ≤ picture.now.netlist.now.horizon }
    ensures { Writes result out.old out.new (wire_line picture.now.netlist.now layout wire) }
{
    row.clear();
    push_wire_line(row, picture.netlist, picture.waves, layout, wire)?;
    out.put_bytes(row.as_slice())?;
    Ok(())
}

/// Writes the rows of the places with findings.
fn put_places<S: Sink>(
    out: &mut Out<S>,
    row: &mut Vec<u8>,
    netlist: &Netlist,
    layout: DiagramLayout,
    places: &[Place],
    found: &[Finding],
) -> Result<(), WriteError>
    requires { All (λ (f : Found). IsTrue (is_within layout.columns f)) found.now }
    ensures { Writes result out.old out.new (flat_map (λ place. place_row netlist.now layout place found.now) places.now) }
{
    let marked = MarkedColumns::of(*row.allocator(), layout.columns, found)?;
    for &place in places {
        put_place(out, row, netlist, layout, place, &marked)?;
    }
    Ok(())
}

fn put_place<S: Sink>(
    out: &mut Out<S>,
    row: &mut Vec<u8>,
    netlist: &Netlist,
    layout: DiagramLayout,
    place: Place,
    marked: &MarkedColumns,
) -> Result<(), WriteError>
    ensures { Writes result out.old out.new (marked_row netlist.now layout marked.now place) }
{
    row.clear();
    push_place_row(row, netlist, layout, place, marked)?;
    out.put_bytes(row.as_slice())?;
    Ok(())
}
