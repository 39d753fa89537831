//! The netlist after an edit, and edits made as one.
use crate::netlist::Netlist;
use crate::netlist::check::check_batch;
use mp_records::{Batch, Edit, EditError, SingleEdit};

impl Netlist {
    ghost use Rattle.std.specs.Prelude.{◌≡◌, ◌⊎◌, ◌≤◌, Ok, Err, length, IfOk, IfErr, OnOk};
    ghost use Rattle.mp_records.specs.declared.edit_error.EditError.TheVariants.{OutOfMemory};
    ghost use Rattle.mp_records.specs.declared.edit.Edit.TheVariants.{Single, Batch as Together};
    ghost use Rattle.mp_netlist.specs.Limits.{max_batch};
    ghost use Rattle.mp_netlist.specs.Edits.{after, after_single, after_each, in_place, RefusedBy};

    /// The netlist after the edit; this one stays as it is. The errors are those of `apply`. It makes one copy, even for a batch, and none if `check`
    /// refuses the edit.
    pub fn after(&self, edit: &Edit) -> Result<Netlist, EditError>
        ensures ok { IfOk result (λ next. after self.now edit.now ≡ Ok next) }
        ensures refused { IfErr result (RefusedBy edit.now (after self.now edit.now)) }
    {
        match edit {
            Edit::Single(single) => self.after_single(single),
            Edit::Batch(batch) => self.after_batch(batch),
        }
    }

    /// The netlist after an edit of one thing.
    fn after_single(&self, edit: &SingleEdit) -> Result<Netlist, EditError>
        ensures ok { IfOk result (λ next. after_single self.now edit.now ≡ Ok next) }
        ensures refused { IfErr result (RefusedBy (Single edit.now) (after_single self.now edit.now)) }
    {
        let checked = self.check_single(edit)?;
        let Ok(mut next) = self.copy() else {
            drop(checked);
            return Err(EditError::OutOfMemory);
        };
        match next.make(checked) {
            Ok(()) => Ok(next),
            Err(_) => {
                drop(next);
                Err(EditError::OutOfMemory)
            }
        }
    }

    /// The netlist after a batch.
    pub(crate) fn after_batch(&self, batch: &Batch) -> Result<Netlist, EditError>
        ensures ok { IfOk result (λ next. after self.now (Together batch.now) ≡ Ok next) }
        ensures refused { IfErr result (RefusedBy (Together batch.now) (after self.now (Together batch.now))) }
    {
        check_batch(batch)?;
        let mut next = self.copy()?;
        match next.make_each(batch) {
            Ok(()) => Ok(next),
            Err(error) => {
                drop(next);
                Err(error)
            }
        }
    }

    /// Makes the edits of a batch in turn, up to the first one that is refused.
    fn make_each(&mut self, batch: &Batch) -> Result<(), EditError>
        requires { length batch.now ≤ max_batch }
        ensures ok { OnOk result (after_each 1 self.old batch.now ≡ Ok self.new) }
        ensures refused { IfErr result (λ error. (after_each 1 self.old batch.now ≡ Err error) ⊎ (error ≡ OutOfMemory)) }
    {
        for (index, edit) in batch.as_slice().iter().enumerate() {
            self.make_in_place(index as u32 + 1, edit)?;
        }
        Ok(())
    }

    /// Makes the edit at this place of a batch.
    fn make_in_place(&mut self, place: u32, edit: &SingleEdit) -> Result<(), EditError>
        ensures ok { OnOk result (in_place place (after_single self.old edit.now) ≡ Ok self.new) }
        ensures refused { IfErr result (λ error. (in_place place (after_single self.old edit.now) ≡ Err error) ⊎ (error ≡ OutOfMemory)) }
    {
        match self.apply_single(edit) {
            Ok(()) => Ok(()),
            Err(EditError::OutOfMemory) => Err(EditError::OutOfMemory),
            Err(error) => Err(EditError::InBatch {
                place,
                number: error.number(),
            }),
        }
    }
}
