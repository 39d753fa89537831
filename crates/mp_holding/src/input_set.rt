//! Sets of inputs.

/// A set of inputs of a module.
#[derive(Clone, Copy, PartialEq, Eq)]
pub enum InputSet {
    None,
    One(usize),
    /// By rising number.
    Two(usize, usize),
}

/// At most two sets of inputs. Where there is one alone, it may be either of the two.
#[derive(Clone, Copy)]
pub struct InputSets {
    pub first: InputSet,
    pub second: InputSet,
}

impl InputSet {
    ghost use Rattle.std.specs.Prelude.{◌≡◌, if◌then◌else◌};
    ghost use Rattle.mp_holding.specs.declared.input_set.InputSet.TheVariants as sets;

    /// The set, if something is so.
    pub fn if_so(self, is_so: bool) -> Self
        ensures { result ≡ (if is_so then self else sets.None) }
    {
        if is_so { self } else { InputSet::None }
    }
}

impl InputSets {
    ghost use Rattle.std.specs.Prelude.{◌≡◌};
    ghost use Rattle.mp_holding.specs.declared.input_set.InputSet.TheVariants as sets;

    /// One set.
    pub fn one(set: InputSet) -> Self
        ensures first { result.first ≡ set }
        ensures second { result.second ≡ sets.None }
    {
        InputSets {
            first: set,
            second: InputSet::None,
        }
    }
}
