//! The greatest closed set.
ghost use Rattle.std.specs.Prelude.{◌≡◌, ◌≢◌, ◌≤◌, ◌<◌, ◌^◌, ◌+◌, ℕ, IfOk, OnOk, length};
ghost use Rattle.mp_holding.specs.sets.ClosedSets.{in_closed_set};
ghost use Rattle.mp_holding.specs.sets.Elimination.{IsGood, everywhere, left_count, where_no_need};
ghost use Rattle.mp_holding.specs.sets.Marks.{is_marked};
ghost use Rattle.mp_holding.specs.sets.Needs.{are_met_at};
ghost use Rattle.mp_holding.specs.sets.Readers.{AreReaders};

use crate::sets::left::Left;
use crate::sets::needs::{NEEDS, Needs, Shape};
use crate::sets::readers::Readers;
use std::alloc::{AllocError, Global};

/// A mark for each number: whether a closed set has it. A set is closed if it meets the needs of its members. The error comes if memory runs out.
///
/// All numbers are looked at first. One whose needs aren't met goes, and then the numbers that need it are looked at again: it costs a step for each
/// need.
pub fn greatest_closed_set(
    alloc: Global,
    shape: Shape,
    needs: &[Needs],
) -> Result<Vec<bool>, AllocError>
    requires { length needs.now < 2 ^ 29 }
    ensures places { IfOk result (λ marks. length marks.items ≡ length needs.now) }
    ensures members { IfOk result (λ marks. (k : ℕ) → is_marked marks.items k ≡ in_closed_set (are_met_at shape needs.now) (length needs.now) k) }
{
    let readers = Readers::of(alloc, needs)?;
    let mut left = first_left(alloc, shape, needs)?;
    while let Some(number) = left.gone.pop() {
        look_at_readers(&mut left, shape, needs, &readers, number)?;
    }
    Ok(left.marks)
}

/// All numbers but those whose needs all numbers together don't meet.
fn first_left(alloc: Global, shape: Shape, needs: &[Needs]) -> Result<Left, AllocError>
    requires { length needs.now < 2 ^ 29 }
    ensures { IfOk result (λ left. IsGood shape needs.now everywhere left.marks.items left.gone.items) }
{
    let marks = vec![in alloc; true; needs.len()]?;
    let gone = Vec::new(alloc);
    let mut left = Left { marks, gone };
    for number in 0..needs.len() as u32 {
        left.look(shape, needs, number)?;
    }
    Ok(left)
}

/// Looks again at the numbers that need one which has gone.
fn look_at_readers(
    left: &mut Left,
    shape: Shape,
    needs: &[Needs],
    readers: &Readers,
    number: u32,
) -> Result<(), AllocError>
    requires few { length needs.now < 2 ^ 29 }
    requires readers { AreReaders needs.now readers.now }
    requires number { number < length needs.now }
    requires good { IsGood shape needs.now (where_no_need needs.now number) left.old.marks.items left.old.gone.items }
    ensures good { OnOk result (IsGood shape needs.now everywhere left.new.marks.items left.new.gone.items) }
    ensures fewer { OnOk result (left_count left.new.marks.items left.new.gone.items ≤ left_count left.old.marks.items left.old.gone.items) }
{
    let mut behind = readers.last_of(number);
    while behind > 0 {
        let place = behind - 1;
        left.look(shape, needs, place / NEEDS)?;
        behind = readers.before(place);
    }
    Ok(())
}
