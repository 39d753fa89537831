//! What numbers need.
ghost use Rattle.std.specs.Prelude.{◌≡◌};
ghost use Rattle.mp_holding.specs.sets.Marks.{is_marked};
ghost use Rattle.mp_holding.specs.sets.Needs.{are_met, are_met_at, is_met, need_at, need_in};

use crate::sets::marks::is_marked;

/// What has to hold for a number to be kept in a set.
#[derive(Clone, Copy, PartialEq, Eq)]
pub enum Need {
    /// Nothing: the need is always met.
    Always,
    /// It is never met.
    Never,
    /// The set has this number.
    Member(u32),
}

/// The four needs of a number.
#[derive(Clone, Copy, PartialEq, Eq)]
pub struct Needs {
    pub first: Need,
    pub second: Need,
    pub third: Need,
    pub fourth: Need,
}

/// Which of a number's needs have to be met.
#[derive(Clone, Copy, PartialEq, Eq)]
pub enum Shape {
    /// The first and the second, or the third and the fourth.
    Pairs,
    /// One of the four.
    Any,
}

/// How many needs a number has.
pub(crate) const NEEDS: u32 = 4;

/// Whether a need is met by the numbers that are marked.
fn is_met(need: Need, marks: &[bool]) -> bool
    ensures { result ≡ is_met (is_marked marks.now) need }
{
    match need {
        Need::Always => true,
        Need::Never => false,
        Need::Member(number) => is_marked(marks, number),
    }
}

/// Whether the numbers that are marked meet the needs of one.
fn are_met(shape: Shape, needs: Needs, marks: &[bool]) -> bool
    ensures { result ≡ are_met shape (is_marked marks.now) needs }
{
    let first = is_met(needs.first, marks);
    let second = is_met(needs.second, marks);
    let third = is_met(needs.third, marks);
    let fourth = is_met(needs.fourth, marks);
    match shape {
        Shape::Pairs => (first && second) || (third && fourth),
        Shape::Any => first || second || third || fourth,
    }
}

/// Whether the numbers that are marked meet the needs at a number; false past the end.
pub(crate) fn are_met_at(shape: Shape, needs: &[Needs], marks: &[bool], number: u32) -> bool
    ensures { result ≡ are_met_at shape needs.now (is_marked marks.now) number }
{
    match needs.get(number as usize) {
        Some(found) => are_met(shape, *found, marks),
        None => false,
    }
}

/// The need at a place: four places for each number.
pub(crate) fn need_at(needs: &[Needs], place: u32) -> Need
    ensures { result ≡ need_at needs.now place }
{
    match needs.get((place / NEEDS) as usize) {
        Some(found) => need_in(*found, place % NEEDS),
        None => Need::Never,
    }
}

fn need_in(needs: Needs, place: u32) -> Need
    ensures { result ≡ need_in place needs }
{
    match place {
        0 => needs.first,
        1 => needs.second,
        2 => needs.third,
        _ => needs.fourth,
    }
}
