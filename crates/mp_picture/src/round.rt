//! How many units a column has.
ghost use Rattle.std.specs.Prelude.{◌≡◌, ◌<◌, ◌≤◌};
ghost use Rattle.mp_picture.specs.RoundNumbers.{round_numbers, are_enough, units_of};

/// 1, 2 and 5 times a power of ten, up to beyond the longest horizon.
const ROUND: [u32; 29] = [
    1,
    2,
    5,
    10,
    20,
    50,
    100,
    200,
    500,
    1000,
    2000,
    5000,
    10_000,
    20_000,
    50_000,
    100_000,
    200_000,
    500_000,
    1_000_000,
    2_000_000,
    5_000_000,
    10_000_000,
    20_000_000,
    50_000_000,
    100_000_000,
    200_000_000,
    500_000_000,
    1_000_000_000,
    2_000_000_000,
];

/// The least round number of units with which at most `most` columns, from a multiple of it on, cover a range.
pub(crate) fn units_of(from: u32, to: u32, most: u32) -> u32
    ensures { result ≡ units_of from to most }
{
    for &units in round_numbers() {
        if are_enough(from, to, most, units) {
            return units;
        }
    }
    2_000_000_000
}

#[tactic(auto, unfolding(crate::specs::RoundNumbers::round_numbers))]
fn round_numbers() -> &'static [u32]
    ensures { result.now ≡ round_numbers }
{
    &ROUND
}

/// Whether `most` columns of this number of units, from a multiple of it on, cover a range.
fn are_enough(from: u32, to: u32, most: u32, units: u32) -> bool
    requires { 0 < units }
    ensures { result ≡ are_enough from to most units }
{
    let begin = from - from % units;
    u64::from(to.saturating_sub(begin)) <= u64::from(units) * u64::from(most)
}
