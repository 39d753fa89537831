//! The SVG of a picture.
ghost use Rattle.std.specs.Prelude.{◌≡◌, ◌+◌, ◌<◌, ◌≤◌, ◌^◌, ◌↔◌, All, IsTrue, length};
ghost use Rattle.mp_streams.specs.WriteErrors.{Writes};
ghost use Rattle.mp_model.specs.Waves.{AreWavesOf};
ghost use Rattle.mp_model.specs.Findings.{findings};
ghost use Rattle.mp_model.specs.declared.finding.Finding.{Finding as Found};
ghost use Rattle.mp_picture.specs.Found.{is_within};
ghost use Rattle.mp_picture.specs.svg.Svg.{svg, sheet, sheet_width, wire_row, wire_rows};

use crate::svg::arrow::Arrow;
use crate::svg::arrow_group::put_arrow_group;
use crate::svg::found_groups::{put_findings, put_mark_rows, words_end};
use crate::svg::frame::Frame;
use crate::svg::head::{put_head, title_end};
use crate::svg::leads::put_lead_group;
use crate::svg::mark_rows::{MarkRow, MarkRows, mark_rows};
use crate::svg::wire_group::put_wire_group;
use crate::svg::wire_rows::WireRows;
use crate::{Picture, cells, found_within, margin_of, rows_of};
use mp_model::Finding;
use mp_netlist::WireId;
use mp_streams::{Out, Sink, WriteError};
use std::alloc::Global;

/// How many columns an SVG has at most.
pub const MOST_COLUMNS: u32 = 1200;

/// What an SVG has beside its wires.
#[derive(Clone, Copy)]
struct Sheet<'a> {
    frame: Frame,
    title: &'a str,
    wires: &'a WireRows,
    rows: &'a MarkRows,
    found: &'a [Finding],
    arrows: &'a [Arrow],
}

/// Writes the SVG of a picture: a title above the times, a row for each wire, a row for each code of which the report finds something at
/// a module or a bundle in the range, with the code's word, a mark for each of these findings, with a line to the wires of its place, and those
/// of the arrows of which both ends are in the picture.
/// Characters of the title below U+0020 are blanks.
///
/// `WriteFailed` comes if the sink fails; then the sink has a beginning of what was held and of the SVG, and nothing is held. `OutOfMemory` comes if
/// memory runs out, or if there are 2^32 rows or more, which no netlist has: then a part of the SVG, from its front, is written. It takes memory for
/// the findings in the range, for the wires and for the cells of one wire.
pub fn put_svg<S: Sink>(
    alloc: Global,
    out: &mut Out<S>,
    picture: &Picture,
    title: &str,
    arrows: &[Arrow],
) -> Result<(), WriteError>
    requires waves { AreWavesOf picture.now.netlist.now picture.now.waves.now }
    requires findings { picture.now.findings.now ≡ findings picture.now.netlist.now }
    requires within { picture.now.columns.to ≤ picture.now.netlist.now.horizon }
    ensures { Writes result out.old out.new (svg picture.now.netlist.now picture.now.columns picture.now.numerals picture.now.wires.now title.now arrows.now) }
{
    let columns = picture.columns;
    let found_list = found_within(alloc, picture.findings, columns)?;
    let found = found_list.as_slice();
    let place_list = rows_of(alloc, found)?;
    let places = place_list.as_slice();
    let margin = margin_of(picture.netlist, picture.wires, places);
    let frame = Frame {
        left: 8 * margin.min(34) as u32,
        columns,
        numerals: picture.numerals,
    };
    let row_list = mark_rows(alloc, columns, places, found)?;
    if !are_few(picture.wires, row_list.as_slice()) {
        return Err(WriteError::OutOfMemory);
    }
    let rows = MarkRows::new(alloc, row_list)?;
    let wires = WireRows::new(alloc, picture.wires)?;
    let sheet = Sheet {
        frame,
        title,
        wires: &wires,
        rows: &rows,
        found,
        arrows,
    };
    put_sheet(alloc, out, picture, sheet)
}

/// Whether wires and codes have fewer than 2^32 rows.
fn are_few(wires: &[WireId], rows: &[MarkRow]) -> bool
    ensures { IsTrue result ↔ (length wires.now + length rows.now < 2 ^ 32) }
{
    wires.len() + rows.len() <= u32::MAX as usize
}

/// The width of an SVG: up to the right end of its columns, times, title and words, and a column more.
fn sheet_width(sheet: Sheet<'_>) -> u64
    ensures { result ≡ sheet_width sheet.entry.frame sheet.entry.title.now sheet.entry.rows.now }
{
    let frame = sheet.frame;
    let columns = frame.end();
    let title = title_end(frame, sheet.title);
    let words = words_end(frame, sheet.rows.as_slice());
    columns.max(title).max(words) + 8
}

/// Writes the SVG of a picture, given what it has beside its wires.
fn put_sheet<S: Sink>(
    alloc: Global,
    out: &mut Out<S>,
    picture: &Picture,
    parts: Sheet<'_>,
) -> Result<(), WriteError>
    requires waves { AreWavesOf picture.now.netlist.now picture.now.waves.now }
    requires horizon { parts.frame.columns.to ≤ picture.now.netlist.now.horizon }
    requires wires { parts.wires.now ≡ picture.now.wires.now }
    requires few { length parts.wires.now + length parts.rows.now < 2 ^ 32 }
    requires within { All (λ (f : Found). IsTrue (is_within parts.frame.columns f)) parts.found.now }
    ensures { Writes result out.old out.new (sheet picture.now.netlist.now parts.entry.frame parts.entry.title.now parts.entry.wires.now parts.entry.rows.now parts.entry.found.now parts.entry.arrows.now) }
{
    let netlist = picture.netlist;
    let Sheet {
        frame,
        title,
        wires,
        rows,
        found,
        arrows,
    } = parts;
    let first = wires.len();
    let marked = rows.as_slice();
    put_head(
        out,
        frame,
        sheet_width(parts),
        first + marked.len() as u32,
        title,
    )?;
    put_lead_group(out, netlist, frame, wires, rows, found)?;
    put_wires(alloc, out, picture, frame)?;
    put_mark_rows(out, netlist, frame, first, marked)?;
    put_findings(out, netlist, frame, first, rows, found)?;
    put_arrow_group(out, frame, wires, arrows)?;
    out.put_text("</svg>\n")?;
    Ok(())
}

/// Writes the rows of the wires.
fn put_wires<S: Sink>(
    alloc: Global,
    out: &mut Out<S>,
    picture: &Picture,
    frame: Frame,
) -> Result<(), WriteError>
    requires waves { AreWavesOf picture.now.netlist.now picture.now.waves.now }
    requires horizon { frame.columns.to ≤ picture.now.netlist.now.horizon }
    requires few { length picture.now.wires.now < 2 ^ 32 }
    ensures { Writes result out.old out.new (wire_rows picture.now.netlist.now frame picture.now.wires.now) }
{
    for (row, &wire) in picture.wires.iter().enumerate() {
        put_wire(alloc, out, picture, frame, row as u32, wire)?;
    }
    Ok(())
}

/// Writes the row of a wire; nothing if there is none.
fn put_wire<S: Sink>(
    alloc: Global,
    out: &mut Out<S>,
    picture: &Picture,
    frame: Frame,
    row: u32,
    wire: WireId,
) -> Result<(), WriteError>
    requires waves { AreWavesOf picture.now.netlist.now picture.now.waves.now }
    requires horizon { frame.columns.to ≤ picture.now.netlist.now.horizon }
    ensures { Writes result out.old out.new (wire_row picture.now.netlist.now frame row wire) }
{
    let (Some(found), Some(wave)) = (picture.netlist.wire(wire), picture.waves.of(wire)) else {
        return Ok(());
    };
    let cells = cells(alloc, wave, frame.columns)?;
    let lane = frame.lane(row);
    put_wire_group(out, lane, wire.0, found, cells.as_slice())?;
    Ok(())
}
