//! The arrows of an SVG.
ghost use Rattle.std.specs.Prelude.{◌≡◌};
ghost use Rattle.std.specs.List.{flat_map, list_any};
ghost use Rattle.mp_streams.specs.Outgoing.{Writes};
ghost use Rattle.mp_picture.specs.svg.Arrows.{is_shown, spot_of, arrow_text, arrows_start, arrow_list, is_drawn, arrow_group};

use crate::svg::arrow::{Arrow, WirePoint};
use crate::svg::frame::Frame;
use crate::svg::leads::lead_x;
use crate::svg::wire_rows::WireRows;
use mp_streams::{Failed, Out, Sink, Text};

/// The style and the head of arrows, and what their group begins with.
const START: &str = "<style>\
.causes path{fill:none;stroke:#8250df;stroke-width:1.5;marker-end:url(#head)}\
#head path{fill:#8250df}\
@media (prefers-color-scheme:dark){\
.causes path{stroke:#a371f7}\
#head path{fill:#a371f7}\
}</style>\
<defs><marker id=\"head\" viewBox=\"0 0 8 8\" refX=\"7\" refY=\"4\" markerWidth=\"7\" markerHeight=\"7\" orient=\"auto\">\
<path d=\"M0 1L8 4L0 7Z\"/></marker></defs>\
<g class=\"causes\">";

/// A point of an SVG.
#[derive(Clone, Copy)]
pub(crate) struct Spot {
    x: u64,
    y: u64,
}

/// Writes the arrows of which both ends are in the picture; if there are none, nothing is written.
pub(crate) fn put_arrow_group<S: Sink>(
    out: &mut Out<S>,
    frame: Frame,
    wires: &WireRows,
    arrows: &[Arrow],
) -> Result<(), Failed>
    ensures { Writes result out.old out.new (arrow_group frame wires.now arrows.now) }
{
    if is_one_drawn(frame, wires, arrows) {
        put_arrow_list(out, frame, wires, arrows)
    } else {
        Ok(())
    }
}

/// Whether an arrow has both its ends in the picture.
fn is_one_drawn(frame: Frame, wires: &WireRows, arrows: &[Arrow]) -> bool
    ensures { result ≡ list_any (is_drawn frame wires.now) arrows.now }
{
    arrows.iter().any(|arrow| is_drawn(frame, wires, *arrow))
}

/// Whether both ends of an arrow are in the picture.
fn is_drawn(frame: Frame, wires: &WireRows, arrow: Arrow) -> bool
    ensures { result ≡ is_drawn frame wires.now arrow }
{
    is_shown(frame, wires, arrow.from) && is_shown(frame, wires, arrow.to)
}

/// Whether the wire has a row, and the time is in the range.
fn is_shown(frame: Frame, wires: &WireRows, point: WirePoint) -> bool
    ensures { result ≡ is_shown frame wires.now point }
{
    let columns = frame.columns;
    let is_in_range = columns.from <= point.time && point.time < columns.to;
    wires.row_of(point.wire) < wires.len() && is_in_range
}

/// Writes the arrows with both ends in the picture, with their group around them.
fn put_arrow_list<S: Sink>(
    out: &mut Out<S>,
    frame: Frame,
    wires: &WireRows,
    arrows: &[Arrow],
) -> Result<(), Failed>
    ensures { Writes result out.old out.new (arrow_list frame wires.now arrows.now) }
{
    put_start(out)?;
    put_arrows(out, frame, wires, arrows)?;
    out.put_text("</g>\n")
}

#[tactic(auto, unfolding(crate::specs::svg::Arrows::arrows_start))]
fn put_start<S: Sink>(out: &mut Out<S>) -> Result<(), Failed>
    ensures { Writes result out.old out.new arrows_start }
{
    out.put_text(START)
}

fn put_arrows<S: Sink>(
    out: &mut Out<S>,
    frame: Frame,
    wires: &WireRows,
    arrows: &[Arrow],
) -> Result<(), Failed>
    ensures { Writes result out.old out.new (flat_map (arrow_text frame wires.now) arrows.now) }
{
    for &arrow in arrows {
        put_arrow(out, frame, wires, arrow)?;
    }
    Ok(())
}

/// Writes an arrow, if both its ends are in the picture.
fn put_arrow<S: Sink>(
    out: &mut Out<S>,
    frame: Frame,
    wires: &WireRows,
    arrow: Arrow,
) -> Result<(), Failed>
    ensures { Writes result out.old out.new (arrow_text frame wires.now arrow) }
{
    let from = spot_of(frame, wires, arrow.from);
    let to = spot_of(frame, wires, arrow.to);
    match (from, to) {
        (Some(from), Some(to)) => {
            let begin = ("M", from.x, " ", from.y);
            let end = ("L", to.x, " ", to.y);
            ("<path d=\"", begin, end, "\"/>").put_to(out)
        }
        _ => Ok(()),
    }
}

/// The point of a wire at a time: at the time's edge, or in the middle of its column, and in the middle of the wire's row. There is none if the wire
/// has no row, or the time isn't in the range.
fn spot_of(frame: Frame, wires: &WireRows, point: WirePoint) -> Option<Spot>
    ensures { result ≡ spot_of frame wires.now point }
{
    let (row, columns) = (wires.row_of(point.wire), frame.columns);
    if row >= wires.len() {
        return None;
    }
    if point.time < columns.from || point.time >= columns.to {
        return None;
    }
    let column = columns.column_of(point.time);
    Some(Spot {
        x: lead_x(frame, column),
        y: frame.lane(row).middle(),
    })
}
