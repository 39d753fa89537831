//! The row of a wire in an SVG.
use crate::Numerals;

/// The row of a wire in an SVG. Rows are counted from 0. Its columns begin at the point `left` of the SVG and have `units` units of time each. Levels
/// are written in these numerals.
#[derive(Clone, Copy)]
pub struct Lane {
    pub left: u32,
    pub row: u32,
    pub units: u32,
    pub numerals: Numerals,
}

impl Lane {
    ghost use Rattle.std.specs.Prelude.{◌≡◌, ◌+◌};
    ghost use Rattle.mp_picture.specs.svg.Lanes.{x_of, top, bottom, middle, base, y_of};
    ghost use Rattle.mp_picture.specs.svg.Columns.{value_x, first_room};

    /// The left edge of a column.
    pub(crate) fn begin(self, column: u32) -> u64
        ensures { result ≡ x_of self column }
    {
        u64::from(self.left) + 8 * u64::from(column)
    }

    /// The right edge of a column.
    pub(crate) fn end(self, column: u32) -> u64
        ensures { result ≡ x_of self (column + 1) }
    {
        self.begin(column) + 8
    }

    /// The height of level 1.
    pub(crate) fn top(self) -> u64
        ensures { result ≡ top self }
    {
        28 * u64::from(self.row) + 40
    }

    /// A height below that of level 1.
    pub(crate) fn below_top(self, more: u32) -> u64
        ensures { result ≡ top self + more }
    {
        28 * u64::from(self.row) + 40 + u64::from(more)
    }

    /// The height of level 0.
    pub(crate) fn bottom(self) -> u64
        ensures { result ≡ bottom self }
    {
        28 * u64::from(self.row) + 56
    }

    /// Halfway between them.
    pub(crate) fn middle(self) -> u64
        ensures { result ≡ middle self }
    {
        28 * u64::from(self.row) + 48
    }

    /// The base line of names and values.
    pub(crate) fn base(self) -> u64
        ensures { result ≡ base self }
    {
        28 * u64::from(self.row) + 52
    }

    /// The x of the level of a wider wire, after the cross of a column.
    pub(crate) fn value_x(self, column: u32) -> u64
        ensures { result ≡ value_x self column }
    {
        if self.units == 1 {
            self.begin(column) + 4
        } else {
            self.end(column)
        }
    }

    /// The number of digits for which the first column has room, with this number of columns after it without an event, of this number of columns in
    /// all.
    pub(crate) fn first_room(self, later: u32, count: u32) -> u64
        ensures { result ≡ first_room self later count }
    {
        let room = u64::from(later) + 1;
        if self.units == 1 && room < u64::from(count) {
            u64::from(later)
        } else {
            room
        }
    }

    /// The height of a level of a wire of width 1.
    pub(crate) fn height(self, level: u64) -> u64
        ensures { result ≡ y_of self level }
    {
        if level == 0 {
            self.bottom()
        } else {
            self.top()
        }
    }
}
