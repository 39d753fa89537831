//! A wire, column by column.
ghost use Rattle.std.specs.Prelude.{◌≡◌, ◌<◌, ◌^◌, ◌++◌, length};
ghost use Rattle.mp_streams.specs.Outgoing.{Writes};
ghost use Rattle.mp_picture.specs.svg.Lanes.{top, bottom};
ghost use Rattle.mp_picture.specs.svg.Columns.{band, bit_path, word_path, wide_path, word_line, line_start, line_end};

use crate::svg::elements::Rectangle;
use crate::svg::lane::Lane;
use crate::svg::svg_drawing::SvgDrawing;
use crate::svg::value_group::ValueGroup;
use crate::{ColumnCell, ColumnEvents, is_still, still_count};
use mp_streams::{Failed, Out, Sink, Text};

/// What is drawn of a wire, column by column.
#[derive(Clone, Copy)]
pub(crate) struct Drawn<'a> {
    pub(crate) lane: Lane,
    pub(crate) cells: &'a [ColumnCell],
    pub(crate) drawing: SvgDrawing,
    ghost few: { length cells.now < 2 ^ 32 },
}

impl<'a> Text for Drawn<'a> {
    ghost use Rattle.mp_picture.specs.svg.Columns.{drawn};

    ghost text = { λ wire. drawn wire.lane wire.cells.now wire.drawing };

    fn put_to<S: Sink>(&self, out: &mut Out<S>) -> Result<(), Failed> {
        let count = self.cells.len() as u32;
        for column in 0..count {
            self.put_column(out, column)?;
        }
        Ok(())
    }
}

impl<'a> Drawn<'a> {
    ghost use Rattle.std.specs.Prelude.{◌≡◌, ◌+◌, ◌<◌, length};
    ghost use Rattle.mp_streams.specs.Outgoing.{Writes};
    ghost use Rattle.mp_picture.specs.Rows.{is_still};
    ghost use Rattle.mp_picture.specs.svg.Columns.{cell_at, still_behind, value, column_text};

    fn put_column<S: Sink>(&self, out: &mut Out<S>, column: u32) -> Result<(), Failed>
        requires { column < length self.now.cells.now }
        ensures { Writes result out.old out.new (column_text self.now.lane self.now.cells.now self.now.drawing column) }
    {
        let cell = self.cells[column as usize];
        match self.drawing {
            SvgDrawing::Bands => put_band(out, self.lane, column, cell.events),
            SvgDrawing::Bits => put_bit(out, self.lane, column, cell),
            SvgDrawing::Values => self.put_value(out, column, cell),
            SvgDrawing::Words => {
                let (still, next) = (is_still(cell), self.is_next_still(column));
                put_word(out, self.lane, column, still, next)
            }
        }
    }

    /// Writes the value of the first column or of one with an event, and otherwise nothing.
    fn put_value<S: Sink>(
        &self,
        out: &mut Out<S>,
        column: u32,
        cell: ColumnCell,
    ) -> Result<(), Failed>
        requires { column < length self.now.cells.now }
        ensures { Writes result out.old out.new (value self.now.lane self.now.cells.now column cell) }
    {
        let (lane, level) = (self.lane, cell.level);
        let later = self.still_behind(column);
        if !is_still(cell) {
            let (x, room) = (lane.value_x(column), u64::from(later));
            return ValueGroup {
                lane,
                column,
                x,
                room,
                later,
                level,
            }
            .put_to(out);
        }
        if column > 0 {
            return Ok(());
        }
        let room = lane.first_room(later, self.cells.len() as u32);
        let x = lane.begin(column);
        ValueGroup {
            lane,
            column,
            x,
            room,
            later,
            level,
        }
        .put_to(out)
    }

    /// Whether the column behind one has no event, or there is none.
    fn is_next_still(&self, column: u32) -> bool
        ensures { result ≡ is_still (cell_at self.now.cells.now (column + 1)) }
    {
        match self.cells.get(column as usize + 1) {
            Some(cell) => is_still(*cell),
            None => true,
        }
    }

    /// How many columns behind one have no event, up to the next that has.
    fn still_behind(&self, column: u32) -> u32
        requires { column < length self.now.cells.now }
        ensures { result ≡ still_behind self.now.cells.now column }
    {
        let later = self.cells.split_at(column as usize + 1).1;
        still_count(later) as u32
    }
}

/// Writes the band of a column with more than one event, and otherwise nothing.
fn put_band<S: Sink>(
    out: &mut Out<S>,
    lane: Lane,
    column: u32,
    events: ColumnEvents,
) -> Result<(), Failed>
    ensures { Writes result out.old out.new (band lane column events) }
{
    match events {
        ColumnEvents::None | ColumnEvents::One => Ok(()),
        ColumnEvents::More => {
            let start = "<rect class=\"band\"";
            let (x, y) = (lane.begin(column), lane.top());
            let width = 8;
            Rectangle { start, x, y, width }.put_to(out)
        }
    }
}

/// Writes the path of a wire of width 1 in a column.
fn put_bit<S: Sink>(
    out: &mut Out<S>,
    lane: Lane,
    column: u32,
    cell: ColumnCell,
) -> Result<(), Failed>
    ensures { Writes result out.old out.new (bit_path lane column cell.events cell.level) }
{
    let x = lane.end(column);
    let y = lane.height(cell.level);
    match cell.events {
        ColumnEvents::None => ("H", x).put_to(out),
        ColumnEvents::One if lane.units == 1 => (("V", y), ("H", x)).put_to(out),
        ColumnEvents::One => ("L", x, " ", y).put_to(out),
        ColumnEvents::More => ("M", x, " ", y).put_to(out),
    }
}

/// Writes the path of a wider wire in a column, by whether it has no event there, and none in the next column.
fn put_word<S: Sink>(
    out: &mut Out<S>,
    lane: Lane,
    column: u32,
    still: bool,
    next: bool,
) -> Result<(), Failed>
    ensures { Writes result out.old out.new (word_path lane column still next) }
{
    if lane.units == 1 {
        put_lines(out, lane, column, (still, next))
    } else {
        put_wide(out, lane, column, still)
    }
}

/// Writes the two lines of a column of one unit.
fn put_lines<S: Sink>(
    out: &mut Out<S>,
    lane: Lane,
    column: u32,
    ends: (bool, bool),
) -> Result<(), Failed>
    ensures { Writes result out.old out.new (word_line lane column (top lane) ends.0 ends.1 ++ word_line lane column (bottom lane) ends.0 ends.1) }
{
    put_line(out, lane, column, lane.top(), ends)?;
    put_line(out, lane, column, lane.bottom(), ends)
}

/// Writes the two lines or the cross of a column of several units.
fn put_wide<S: Sink>(out: &mut Out<S>, lane: Lane, column: u32, still: bool) -> Result<(), Failed>
    ensures { Writes result out.old out.new (wide_path lane column still) }
{
    let (x, end) = (lane.begin(column), lane.end(column));
    let (top, bottom) = (lane.top(), lane.bottom());
    let above = ("M", x, " ", top);
    let below = ("M", x, " ", bottom);
    if still {
        (above, ("H", end), below, ("H", end)).put_to(out)
    } else {
        (above, ("L", end, " ", bottom), below, ("L", end, " ", top)).put_to(out)
    }
}

/// Writes a line at a height in a column of one unit, by whether that column has no event, and the next none: from the middle of the
/// column's cross, if it has one, to that of the next.
fn put_line<S: Sink>(
    out: &mut Out<S>,
    lane: Lane,
    column: u32,
    y: u64,
    ends: (bool, bool),
) -> Result<(), Failed>
    ensures { Writes result out.old out.new (word_line lane column y ends.0 ends.1) }
{
    put_line_start(out, lane, column, y, ends.0)?;
    put_line_end(out, lane, column, y, ends.1)
}

fn put_line_start<S: Sink>(
    out: &mut Out<S>,
    lane: Lane,
    column: u32,
    y: u64,
    still: bool,
) -> Result<(), Failed>
    ensures { Writes result out.old out.new (line_start lane column y still) }
{
    let x = lane.begin(column);
    if still {
        ("M", x, " ", y).put_to(out)
    } else {
        let cross = ("M", x, " ", lane.middle());
        (cross, ("L", x + 3, " ", y)).put_to(out)
    }
}

fn put_line_end<S: Sink>(
    out: &mut Out<S>,
    lane: Lane,
    column: u32,
    y: u64,
    next: bool,
) -> Result<(), Failed>
    ensures { Writes result out.old out.new (line_end lane column y next) }
{
    let end = lane.end(column);
    if next {
        ("H", end).put_to(out)
    } else {
        let line = ("L", lane.begin(column) + 5, " ", y);
        (line, ("L", end, " ", lane.middle())).put_to(out)
    }
}
