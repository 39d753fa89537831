//! The numbers that are left.
ghost use Rattle.std.specs.Prelude.{◌≡◌, ◌<◌, false, length, slice_set};

use crate::sets::marks::is_marked;
use crate::sets::needs::{Needs, Shape, are_met_at};
use std::alloc::{AllocError, Global};

/// The numbers that are left in a set, and those that have gone and whose readers are still to be looked at.
#[derive(Drop)]
pub(crate) struct Left {
    pub(crate) marks: Vec<bool>,
    pub(crate) gone: Vec<u32>,
}

impl Left {
    ghost use Rattle.std.specs.Prelude.{◌≡◌, ◌^◌, ◌<◌, OnOk, length};
    ghost use Rattle.mp_holding.specs.sets.Elimination.{gone_after, marks_after};

    /// Lets a number go, if the numbers that are left don't meet its needs.
    pub(crate) fn look(
        &mut self,
        shape: Shape,
        needs: &[Needs],
        number: u32,
    ) -> Result<(), AllocError>
        ensures marks { OnOk result (self.new.marks.items ≡ marks_after shape needs.now number self.old.marks.items) }
        ensures gone { OnOk result (self.new.gone.items ≡ gone_after shape needs.now number self.old.marks.items self.old.gone.items) }
    {
        let marks = self.marks.as_slice();
        if !is_marked(marks, number) || are_met_at(shape, needs, marks, number) {
            return Ok(());
        }
        unmark(&mut self.marks, number);
        self.gone.push(number)?;
        Ok(())
    }
}

/// Takes the mark from a number.
fn unmark(marks: &mut Vec<bool>, number: u32)
    requires { number < length marks.old.items }
    ensures { marks.new.items ≡ slice_set marks.old.items number false }
{
    marks[number as usize] = false;
}
