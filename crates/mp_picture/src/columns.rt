//! A range of units that is cut into columns.
ghost use Rattle.std.specs.Prelude.{◌<◌};

use crate::round::units_of;

/// A range of units, cut into columns that have the same number of units; the last one may have fewer.
#[derive(Clone, Copy)]
pub struct Columns {
    /// The first unit of the range.
    pub from: u32,
    /// The unit behind the last one of the range.
    pub to: u32,
    /// How many units a column has; the last may have fewer.
    pub units: u32,
    ghost some: { from < to },
    ghost wide: { 0 < units },
}

impl Columns {
    ghost use Rattle.std.specs.Prelude.{◌≡◌, ℕ, ◌-◌, ◌*◌, ◌<◌, ◌≤◌, IsTrue};
    ghost use Rattle.mp_netlist.specs.Limits.{max_horizon};
    ghost use Rattle.mp_picture.specs.Columns.{count, begin, end, column_of, range_from, range_to};
    ghost use Rattle.mp_picture.specs.ColumnRanges.{columns_in};
    ghost use Rattle.mp_picture.specs.RoundNumbers.{is_round, rounded_down};

    /// The units from `from` to before `to`, in at most `most` columns. All columns have the same number of units: the least of 1, 2 or 5 times a
    /// power of ten with which they reach over the range. Columns begin at multiples of that number: if `from` isn't one, the range begins at the
    /// multiple before. A time at or above the horizon is read as the last unit, and at the end of the range as the horizon itself. An empty range is
    /// read as its first unit.
    pub fn new(horizon: u32, from: u32, to: u32, most: u32) -> Columns
        requires horizon { 0 < horizon }
        requires low { horizon ≤ max_horizon }
        requires some { 0 < most }
        ensures round { IsTrue (is_round result.units) }
        ensures from { result.from ≡ rounded_down result.units (range_from horizon from) }
        ensures to { result.to ≡ range_to horizon from to }
        ensures within { result.to ≤ horizon }
        ensures enough { result.to - result.from ≤ result.units * most }
        ensures value { result ≡ columns_in horizon from to most }
        ensures fewest { (k : ℕ) → IsTrue (is_round k) → result.to - rounded_down k (range_from horizon from) ≤ k * most → result.units ≤ k }
    {
        let from = from.min(horizon - 1);
        let to = to.min(horizon).max(from + 1);
        let units = units_of(from, to, most);
        let from = from - from % units;
        Columns { from, to, units }
    }

    /// How many columns there are.
    pub fn count(self) -> u32
        ensures value { result ≡ count self }
        ensures some { 0 < result }
    {
        (self.to - self.from).div_ceil(self.units)
    }

    /// The first unit of a column. Columns are counted from 0.
    pub fn begin(self, column: u32) -> u32
        requires { column < count self }
        ensures value { result ≡ begin self column }
        ensures within { result < self.to }
    {
        self.from + self.units * column
    }

    /// The unit behind the last one of a column. Columns are counted from 0.
    pub fn end(self, column: u32) -> u32
        requires { column < count self }
        ensures value { result ≡ end self column }
        ensures some { begin self column < result }
        ensures within { result ≤ self.to }
    {
        let begin = self.begin(column);
        begin + self.units.min(self.to - begin)
    }

    /// The column, counted from 0, of a time in the range.
    pub fn column_of(self, time: u32) -> u32
        requires from { self.from ≤ time }
        requires to { time < self.to }
        ensures value { result ≡ column_of self time }
        ensures within { result < count self }
        ensures begin { begin self result ≤ time }
        ensures end { time < end self result }
    {
        (time - self.from) / self.units
    }
}
