//! Laws of the definitions.

ghost use Rattle.mp_modules.specs.declared.storage.data_part.DataPart.{DataPart};
ghost use Rattle.mp_modules.specs.storage.AnyModules.{KeepsKind};
ghost use Rattle.mp_modules.specs.storage.DataParts.{IsToldByOutputs};
ghost use Rattle.mp_modules.specs.storage.RegLaws.{ChangesWhileOpen, FollowsWhileOpen};
ghost use Rattle.mp_modules.specs.storage.Arithmetic.{ComputesModuloWidth};

/// A module that is made of a kind has that kind.
pub fn keeps_kind()
    ensures { KeepsKind }
{}

/// The data output of a REG changes only in a unit in which it is open, that is, its capture and its pass are equal; then it is the data input.
pub fn register_changes_while_open()
    ensures changes { ChangesWhileOpen }
    ensures follows { FollowsWhileOpen }
{}

/// ADDC and SUM add, and SUB subtracts, modulo two to the power of their width. JOIN puts a bit below a number.
pub fn computes_modulo_width()
    ensures { ComputesModuloWidth }
{}

/// The outputs of a module with data and the levels at its inputs determine its state.
pub fn outputs_tell_states()
    ensures { (part : DataPart) → IsToldByOutputs part }
{}
