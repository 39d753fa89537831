//! The characters of a row.
ghost use Rattle.std.specs.Prelude.{◌≡◌};
ghost use Rattle.mp_picture.specs.Marks.{level_mark};

use crate::cell::{ColumnCell, ColumnEvents};

/// The characters that a picture is drawn with: blocks and lines of Unicode, in UTF-8, or those of ASCII.
#[derive(Clone, Copy, PartialEq, Eq)]
pub enum Charset {
    Unicode,
    Ascii,
}

/// The content of a column in a wire's row.
#[derive(Clone, Copy, PartialEq, Eq)]
pub(crate) enum Mark {
    Low,
    High,
    Rise,
    Fall,
    Busy,
    Flat,
    Cross,
}

impl Mark {
    ghost use Rattle.std.specs.Prelude.{◌≡◌};
    ghost use Rattle.mp_picture.specs.Marks.{mark_text, bit_mark};

    /// The mark of a wire of width 1 in a column of this number of units. In a column of one unit an event needs no mark: the column has the new
    /// level.
    pub(crate) fn of(units: u32, cell: ColumnCell) -> Mark
        ensures { result ≡ bit_mark units cell }
    {
        match cell.events {
            ColumnEvents::None => level_mark(cell.level),
            ColumnEvents::One if units == 1 => level_mark(cell.level),
            ColumnEvents::One if cell.level == 0 => Mark::Fall,
            ColumnEvents::One => Mark::Rise,
            ColumnEvents::More => Mark::Busy,
        }
    }

    /// The mark's bytes.
    pub(crate) fn text(self, charset: Charset) -> &'static [u8]
        ensures { result.now ≡ mark_text charset self }
    {
        match charset {
            Charset::Unicode => self.unicode(),
            Charset::Ascii => self.ascii(),
        }
    }

    fn unicode(self) -> &'static [u8]
        ensures { result.now ≡ mark_text Charset.Unicode self }
    {
        match self {
            Mark::Low => b"\xe2\x96\x81",
            Mark::High => b"\xe2\x96\x94",
            Mark::Rise => b"\xe2\x95\xb1",
            Mark::Fall => b"\xe2\x95\xb2",
            Mark::Busy => b"\xe2\x96\x92",
            Mark::Flat => b"\xe2\x95\x90",
            Mark::Cross => b"\xe2\x95\xb3",
        }
    }

    fn ascii(self) -> &'static [u8]
        ensures { result.now ≡ mark_text Charset.Ascii self }
    {
        match self {
            Mark::Low => b"_",
            Mark::High => b"-",
            Mark::Rise => b"/",
            Mark::Fall => b"\\",
            Mark::Busy => b"#",
            Mark::Flat => b"=",
            Mark::Cross => b"X",
        }
    }
}

fn level_mark(level: u64) -> Mark
    ensures { result ≡ level_mark level }
{
    if level == 0 { Mark::Low } else { Mark::High }
}
