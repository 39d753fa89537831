//! The least and the greatest of some numbers.
ghost use Rattle.std.specs.Prelude.{◌≡◌};
ghost use Rattle.mp_questions.specs.timing.Extremes.{widened, widened_by};

/// The least and the greatest of some numbers of units.
#[derive(Clone, Copy, PartialEq, Eq)]
pub struct Extremes {
    pub least: u32,
    pub most: u32,
}

/// The extremes of numbers that had these, none if there were none yet, and of a further number.
pub(crate) fn widened(found: Option<Extremes>, number: u32) -> Option<Extremes>
    ensures { result ≡ widened found number }
{
    match found {
        Some(extremes) => Some(Extremes {
            least: extremes.least.min(number),
            most: extremes.most.max(number),
        }),
        None => Some(Extremes {
            least: number,
            most: number,
        }),
    }
}

/// The extremes of numbers that had these, if there were any, and of a further number, if there is one.
pub(crate) fn widened_by(found: Option<Extremes>, number: Option<u32>) -> Option<Extremes>
    ensures { result ≡ widened_by found number }
{
    match number {
        Some(number) => widened(found, number),
        None => found,
    }
}
