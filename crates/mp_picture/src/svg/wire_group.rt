//! The row of a wire in an SVG.
ghost use Rattle.std.specs.Prelude.{◌≡◌, ◌<◌, ◌^◌, length};
ghost use Rattle.mp_streams.specs.Outgoing.{Writes};
ghost use Rattle.mp_picture.specs.svg.Columns.{cell_at};
ghost use Rattle.mp_picture.specs.svg.WireGroups.{level_before, wire_start, bits, words, wire_shape, wire_group};

use crate::svg::drawn::Drawn;
use crate::svg::elements::Label;
use crate::svg::lane::Lane;
use crate::svg::svg_drawing::SvgDrawing;
use crate::{ColumnCell, ColumnEvents};
use mp_netlist::WireRecord;
use mp_streams::{Failed, Out, Sink, Text};

const PATH_START: &str = "<path class=\"level\" d=\"";

/// Writes the row of the wire of this number: its name, a path, and bands or values. `cells` has a cell for each column. `Failed` comes as in
/// `Out::put_bytes`.
pub fn put_wire_group<S: Sink>(
    out: &mut Out<S>,
    lane: Lane,
    number: u32,
    wire: &WireRecord,
    cells: &[ColumnCell],
) -> Result<(), Failed>
    requires { length cells.now < 2 ^ 32 }
    ensures { Writes result out.old out.new (wire_group lane number wire.now cells.now) }
{
    put_wire_start(out, lane, number, wire)?;
    put_shape(out, lane, wire.width, cells)?;
    out.put_text("</g>\n")
}

fn put_wire_start<S: Sink>(
    out: &mut Out<S>,
    lane: Lane,
    number: u32,
    wire: &WireRecord,
) -> Result<(), Failed>
    ensures { Writes result out.old out.new (wire_start lane number wire.now) }
{
    let text = wire.name.as_str();
    let id = (" id=\"wire-", number, "\"");
    let width = (" data-width=\"", wire.width, "\"");
    let top = (" data-top=\"", lane.top(), "\"");
    let bottom = (" data-bottom=\"", lane.bottom(), "\"");
    let title = ("<title>", text, "</title>");
    let y = lane.base();
    let name = (title, Label { x: 8, y, text });
    ("<g class=\"wire\"", id, width, (top, bottom, ">", name)).put_to(out)
}

fn put_shape<S: Sink>(
    out: &mut Out<S>,
    lane: Lane,
    width: u32,
    cells: &[ColumnCell],
) -> Result<(), Failed>
    requires { length cells.now < 2 ^ 32 }
    ensures { Writes result out.old out.new (wire_shape lane width cells.now) }
{
    if width == 1 {
        put_bits(out, lane, cells)
    } else {
        put_words(out, lane, cells)
    }
}

/// Writes bands and the path of a wire of width 1.
fn put_bits<S: Sink>(out: &mut Out<S>, lane: Lane, cells: &[ColumnCell]) -> Result<(), Failed>
    requires { length cells.now < 2 ^ 32 }
    ensures { Writes result out.old out.new (bits lane cells.now) }
{
    let first = first_cell(cells);
    let y = lane.height(level_before(first));
    let start = ("M", lane.begin(0), " ", y);
    let drawing = SvgDrawing::Bands;
    let bands = Drawn {
        lane,
        cells,
        drawing,
    };
    let drawing = SvgDrawing::Bits;
    let path = Drawn {
        lane,
        cells,
        drawing,
    };
    (bands, PATH_START, start, (path, "\"/>")).put_to(out)
}

/// Writes values and the path of a wider wire.
fn put_words<S: Sink>(out: &mut Out<S>, lane: Lane, cells: &[ColumnCell]) -> Result<(), Failed>
    requires { length cells.now < 2 ^ 32 }
    ensures { Writes result out.old out.new (words lane cells.now) }
{
    let drawing = SvgDrawing::Values;
    let values = Drawn {
        lane,
        cells,
        drawing,
    };
    let drawing = SvgDrawing::Words;
    let path = Drawn {
        lane,
        cells,
        drawing,
    };
    (values, PATH_START, path, "\"/>").put_to(out)
}

/// The first cell, and one without an event at level 0 if there is none.
fn first_cell(cells: &[ColumnCell]) -> ColumnCell
    ensures { result ≡ cell_at cells.now 0 }
{
    match cells.first() {
        Some(cell) => *cell,
        None => ColumnCell {
            events: ColumnEvents::None,
            level: 0,
        },
    }
}

/// The level before the first column: that of its cell, or the other one if that has one event.
fn level_before(cell: ColumnCell) -> u64
    ensures { result ≡ level_before cell.events cell.level }
{
    match cell.events {
        ColumnEvents::One => 1u64.saturating_sub(cell.level),
        ColumnEvents::None | ColumnEvents::More => cell.level,
    }
}
