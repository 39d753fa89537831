//! What an SVG begins with.
ghost use Rattle.std.specs.Prelude.{◌≡◌, ◌<◌, ◌^◌, count_by};
ghost use Rattle.mp_streams.specs.Outgoing.{Writes};
ghost use Rattle.mp_picture.specs.svg.Frames.{tick_count};
ghost use Rattle.mp_picture.specs.svg.Heads.{root, height, tick_mark, ticks, axis, begins_letter, title_end, head};

use crate::svg::elements::{Escaped, Label};
use crate::svg::frame::Frame;
use crate::svg::style::put_style;
use mp_streams::{Failed, Out, Sink, Text};

/// For how many letters of a title there is room at least.
const MOST_LETTERS: usize = 1200;

/// Writes the beginning of the root, the style and the axis of an SVG with this width and number of rows.
pub(crate) fn put_head<S: Sink>(
    out: &mut Out<S>,
    frame: Frame,
    wide: u64,
    rows: u32,
    title: &str,
) -> Result<(), Failed>
    ensures { Writes result out.old out.new (head frame wide rows title.now) }
{
    put_root(out, frame, wide, rows)?;
    put_style(out)?;
    put_axis(out, frame, rows, title)
}

/// How many characters a text has.
fn letters(text: &[u8]) -> usize
    ensures { result ≡ count_by begins_letter text.now }
{
    text.iter().filter(|byte| begins_letter(**byte)).count()
}

/// Whether a byte of a text begins a character, and doesn't go on with one.
fn begins_letter(byte: u8) -> bool
    ensures { result ≡ begins_letter byte }
{
    byte < 128 || byte >= 192
}

/// The right end of the title of the axis, or of its first 1,200 letters.
pub(crate) fn title_end(frame: Frame, title: &str) -> u64
    ensures value { result ≡ title_end frame title.now }
    ensures low { result < 2 ^ 63 }
{
    let letters = letters(title.as_bytes()).min(MOST_LETTERS);
    u64::from(frame.left) + 8 * letters as u64
}

/// The height of an SVG with this number of rows.
fn height(rows: u32) -> u64
    ensures { result ≡ height rows }
{
    28 * u64::from(rows) + 44
}

fn put_root<S: Sink>(out: &mut Out<S>, frame: Frame, wide: u64, rows: u32) -> Result<(), Failed>
    ensures { Writes result out.old out.new (root frame wide rows) }
{
    let columns = frame.columns;
    let high = height(rows);
    let width = (" width=\"", wide, "\"");
    let height = (" height=\"", high, "\"");
    let view = (" viewBox=\"", ("0 0 ", wide, " ", high), "\"");
    let from = (" data-from=\"", columns.from, "\"");
    let to = (" data-to=\"", columns.to, "\"");
    let units = (" data-units=\"", columns.units, "\"");
    let count = (" data-columns=\"", columns.count(), "\"");
    let left = (" data-left=\"", frame.left, "\"");
    let pitch = (" data-pitch=\"", 8u32, "\"");
    let range = (from, to, units, (count, left, pitch));
    let start = "<svg xmlns=\"http://www.w3.org/2000/svg\"";
    (start, width, height, (view, range, ">\n")).put_to(out)
}

/// Writes the title, and the times below it, each over an upright line.
fn put_axis<S: Sink>(out: &mut Out<S>, frame: Frame, rows: u32, title: &str) -> Result<(), Failed>
    ensures { Writes result out.old out.new (axis frame rows title.now) }
{
    let x = u64::from(frame.left);
    let bytes = title.as_bytes();
    let text = Escaped { bytes };
    let text = Label { x, y: 14, text };
    ("<g class=\"axis\">", text).put_to(out)?;
    put_ticks(out, frame, rows)?;
    out.put_text("</g>\n")
}

fn put_ticks<S: Sink>(out: &mut Out<S>, frame: Frame, rows: u32) -> Result<(), Failed>
    ensures { Writes result out.old out.new (ticks frame rows) }
{
    for number in 0..frame.tick_count() {
        put_tick(out, frame, rows, number)?;
    }
    Ok(())
}

fn put_tick<S: Sink>(out: &mut Out<S>, frame: Frame, rows: u32, number: u32) -> Result<(), Failed>
    requires { number < tick_count frame }
    ensures { Writes result out.old out.new (tick_mark frame rows number) }
{
    let column = frame.tick_column(number);
    let x = frame.x(column);
    let text = frame.columns.begin(column);
    let start = ("<path d=\"M", x, " ", 36u32);
    let line = ("V", height(rows) - 8);
    (start, line, "\"/>", Label { x, y: 30, text }).put_to(out)
}
