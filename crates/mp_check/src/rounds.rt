//! Ways from number to number that come round.
ghost use Rattle.std.specs.Prelude.{◌≡◌, ◌+◌, ◌≤◌, ◌<◌, ◌^◌, ℕ, IfOk, All, filter, length, if◌then◌else◌};
ghost use Rattle.std.specs.List.{range_with_len};
ghost use Rattle.mp_check.specs.Ways.{begins_round, least, way};
ghost use Rattle.mp_check.specs.Doubling.{AreWays, beyond, next_in, number_in};

use std::alloc::{AllocError, Global};

/// For each number the way from it on, of as many numbers as there are in each.
#[derive(Drop)]
struct Ways {
    /// The number at the end of each way.
    beyond: Vec<u32>,
    /// The least number on each way, and how many ways there are if it is none of these.
    least: Vec<u32>,
}

/// The numbers that are on a cycle and are the least on it, if each number has a next one. The number of all numbers means that there is no next one.
pub(crate) fn round_beginnings(alloc: Global, next: &[u32]) -> Result<Vec<u32>, AllocError>
    requires few { length next.now < 2 ^ 32 }
    requires next { All (λ k. k ≤ length next.now) next.now }
    ensures { IfOk result (λ found. found.items ≡ filter (begins_round (next_in next.now) (length next.now)) (range_with_len 0 (length next.now))) }
{
    let count = next.len() as u32;
    let ways = ways_of(alloc, next, count)?;
    let mut found = Vec::new(alloc);
    for number in 0..count {
        let behind = number_in(count, next, number);
        if number_in(count, ways.least.as_slice(), behind) == number {
            found.push(number)?;
        }
    }
    Ok(found)
}

/// The ways of `count` numbers.
fn ways_of(alloc: Global, next: &[u32], count: u32) -> Result<Ways, AllocError>
    requires few { length next.now < 2 ^ 32 }
    requires next { All (λ k. k ≤ length next.now) next.now }
    ensures { IfOk result (AreWays (next_in next.now) (length next.now) count) }
{
    if count == 0 {
        return no_ways(alloc, next);
    }
    let half = ways_of(alloc, next, count / 2)?;
    doubled(alloc, next, &half, count % 2 == 1)
}

/// The ways of no numbers.
fn no_ways(alloc: Global, next: &[u32]) -> Result<Ways, AllocError>
    requires { length next.now < 2 ^ 32 }
    ensures { IfOk result (AreWays (next_in next.now) (length next.now) 0) }
{
    let count = next.len() as u32;
    let mut beyond = Vec::with_capacity(alloc, next.len())?;
    let mut least = Vec::with_capacity(alloc, next.len())?;
    for number in 0..count {
        beyond.push(number)?;
        least.push(count)?;
    }
    Ok(Ways { beyond, least })
}

/// The ways of twice as many numbers, plus one if `and_one` is true.
fn doubled(alloc: Global, next: &[u32], half: &Ways, and_one: bool) -> Result<Ways, AllocError>
    requires few { length next.now < 2 ^ 32 }
    requires next { All (λ k. k ≤ length next.now) next.now }
    ensures { (count : ℕ) → AreWays (next_in next.now) (length next.now) count half.now → IfOk result (AreWays (next_in next.now) (length next.now) (count + count + (if and_one then 1 else 0))) }
{
    let mut beyond = Vec::with_capacity(alloc, next.len())?;
    let mut least = Vec::with_capacity(alloc, next.len())?;
    for number in 0..next.len() as u32 {
        beyond.push(doubled_beyond(next, half, number, and_one))?;
        least.push(doubled_least(next, half, number, and_one))?;
    }
    Ok(Ways { beyond, least })
}

/// The number at the end of such a way.
fn doubled_beyond(next: &[u32], half: &Ways, number: u32, and_one: bool) -> u32
    requires few { length next.now < 2 ^ 32 }
    requires next { All (λ k. k ≤ length next.now) next.now }
    ensures { (count : ℕ) → AreWays (next_in next.now) (length next.now) count half.now → number ≤ length next.now → result ≡ beyond (next_in next.now) (count + count + (if and_one then 1 else 0)) number }
{
    let none = next.len() as u32;
    let middle = number_in(none, half.beyond.as_slice(), number);
    let end = number_in(none, half.beyond.as_slice(), middle);
    if and_one {
        return number_in(none, next, end);
    }
    end
}

/// The least number on such a way.
fn doubled_least(next: &[u32], half: &Ways, number: u32, and_one: bool) -> u32
    requires few { length next.now < 2 ^ 32 }
    requires next { All (λ k. k ≤ length next.now) next.now }
    ensures { (count : ℕ) → AreWays (next_in next.now) (length next.now) count half.now → number ≤ length next.now → result ≡ least (length next.now) (way (next_in next.now) (count + count + (if and_one then 1 else 0)) number) }
{
    let none = next.len() as u32;
    let middle = number_in(none, half.beyond.as_slice(), number);
    let first = number_in(none, half.least.as_slice(), number);
    let second = number_in(none, half.least.as_slice(), middle);
    if and_one {
        let end = number_in(none, half.beyond.as_slice(), middle);
        return first.min(second).min(end);
    }
    first.min(second)
}

/// The number at a place, or `none` if there is no such place.
fn number_in(none: u32, numbers: &[u32], place: u32) -> u32
    ensures { result ≡ number_in none numbers.now place }
{
    match numbers.get(place as usize) {
        Some(number) => *number,
        None => none,
    }
}
