//! The columns of an SVG.
use crate::svg::lane::Lane;
use crate::{Columns, Numerals, last_tick, tick_step};
use itoa::Buffer;

/// The columns of an SVG, from a point on, and how its levels are written.
#[derive(Clone, Copy)]
pub(crate) struct Frame {
    pub(crate) left: u32,
    pub(crate) columns: Columns,
    pub(crate) numerals: Numerals,
}

impl Frame {
    ghost use Rattle.std.specs.Prelude.{◌≡◌, ◌<◌, ◌≤◌, ◌*◌, ◌^◌, length};
    ghost use Rattle.mp_picture.specs.Columns.{count};
    ghost use Rattle.mp_picture.specs.Rows.{tick_step};
    ghost use Rattle.mp_picture.specs.svg.Frames.{column_x, lane, tick_count, end};

    /// The left edge of a column.
    pub(crate) fn x(self, column: u32) -> u64
        ensures { result ≡ column_x self column }
    {
        u64::from(self.left) + 8 * u64::from(column)
    }

    /// A row by number, from 0.
    pub(crate) fn lane(self, row: u32) -> Lane
        ensures { result ≡ lane self row }
    {
        Lane {
            left: self.left,
            row,
            units: self.columns.units,
            numerals: self.numerals,
        }
    }

    /// The number of columns with a time.
    pub(crate) fn tick_count(self) -> u32
        ensures value { result ≡ tick_count self }
        ensures some { 0 < result }
    {
        last_tick(self.columns) + 1
    }

    /// The column of a time, by its number.
    pub(crate) fn tick_column(self, number: u32) -> u32
        requires { number < tick_count self }
        ensures value { result ≡ tick_step self.columns * number }
        ensures within { result < count self.columns }
    {
        tick_step(self.columns) * number
    }

    /// The right end of the columns, or of the last time if that is further to the right.
    pub(crate) fn end(self) -> u64
        ensures value { result ≡ end self }
        ensures low { result < 2 ^ 63 }
    {
        let last = self.tick_column(self.tick_count() - 1);
        let mut digits = Buffer::new();
        let time = digits.format(self.columns.begin(last));
        let reach = self.x(last) + 8 * time.len() as u64;
        self.x(self.columns.count()).max(reach)
    }
}
