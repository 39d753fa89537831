//! Elements of an SVG.
ghost use Rattle.mp_streams.specs.Outgoing.{Writes};
ghost use Rattle.mp_picture.specs.svg.Elements.{escaped_byte};

use mp_streams::{Failed, Out, Sink, Text};

/// A text from a point on.
#[derive(Clone, Copy)]
pub(crate) struct Label<T> {
    pub(crate) x: u64,
    pub(crate) y: u64,
    pub(crate) text: T,
}

impl<T: Text> Text for Label<T> {
    ghost use Rattle.mp_picture.specs.svg.Elements.{text_from};

    ghost text = { λ label. text_from label.x label.y (T.text label.text) };

    fn put_to<S: Sink>(&self, out: &mut Out<S>) -> Result<(), Failed> {
        let x = (" x=\"", self.x, "\"");
        let y = (" y=\"", self.y, "\"");
        ("<text", x, y, (">", &self.text, "</text>")).put_to(out)
    }
}

/// A text as it is written in an element: a character that begins a tag or a reference by its name, and one below U+0020 as a blank.
#[derive(Clone, Copy)]
pub(crate) struct Escaped<'a> {
    pub(crate) bytes: &'a [u8],
}

impl<'a> Text for Escaped<'a> {
    ghost use Rattle.mp_picture.specs.svg.Elements.{escaped};

    ghost text = { λ any. escaped any.bytes.now };

    fn put_to<S: Sink>(&self, out: &mut Out<S>) -> Result<(), Failed> {
        for &byte in self.bytes {
            put_escaped(out, byte)?;
        }
        Ok(())
    }
}

fn put_escaped<S: Sink>(out: &mut Out<S>, byte: u8) -> Result<(), Failed>
    ensures { Writes result out.old out.new (escaped_byte byte) }
{
    match byte {
        b'&' => out.put_text("&amp;"),
        b'<' => out.put_text("&lt;"),
        b'>' => out.put_text("&gt;"),
        0..=31 => out.put_text(" "),
        _ => out.put_bytes(&[byte]),
    }
}

/// A rectangle as high as a row, behind what its element begins with.
#[derive(Clone, Copy)]
pub(crate) struct Rectangle {
    pub(crate) start: &'static str,
    pub(crate) x: u64,
    pub(crate) y: u64,
    pub(crate) width: u64,
}

impl Text for Rectangle {
    ghost use Rattle.mp_picture.specs.svg.Elements.{rectangle};

    ghost text = { λ shape. rectangle shape.start.now shape.x shape.y shape.width };

    fn put_to<S: Sink>(&self, out: &mut Out<S>) -> Result<(), Failed> {
        let x = (" x=\"", self.x, "\"");
        let y = (" y=\"", self.y, "\"");
        let width = (" width=\"", self.width, "\"");
        (self.start, x, y, (width, " height=\"16\"", "/>")).put_to(out)
    }
}
