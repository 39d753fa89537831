//! Numbers of codes at places.

use crate::place_key::{PlaceKey, place_key};
use mp_model::Place;
use mp_modules::FindingCode;
use std::alloc::{AllocError, Global};
use std::collections::BTreeMap;

/// A number for each code at each place that was given one.
#[derive(Drop)]
pub(crate) struct MarkNumbers {
    numbers: BTreeMap<(PlaceKey, u32), u32>,
}

impl MarkNumbers {
    ghost use Rattle.std.specs.Prelude.{◌≡◌, None, Some, OnOk, if◌then◌else◌};
    ghost use Rattle.mp_modules.specs.declared.finding_code.FindingCode.{FindingCode as AnyCode};
    ghost use Rattle.mp_model.specs.declared.finding.Place.{Place as AnyPlace};
    ghost use Rattle.mp_picture.specs.svg.MarkNumbers.{number_of, is_mark};

    /// No numbers.
    pub(crate) fn new(alloc: Global) -> MarkNumbers
        ensures { (place : AnyPlace) (code : AnyCode) → number_of result place code ≡ None }
    {
        MarkNumbers {
            numbers: BTreeMap::new(alloc),
        }
    }

    /// The number of a code at a place, if it was given one.
    pub(crate) fn get(&self, place: Place, code: FindingCode) -> Option<u32>
        ensures { result ≡ number_of self.now place code }
    {
        self.numbers
            .get(&(place_key(place), code.number()))
            .copied()
    }

    /// Gives a code at a place a number, in place of the one that it may have.
    pub(crate) fn set(
        &mut self,
        place: Place,
        code: FindingCode,
        number: u32,
    ) -> Result<(), AllocError>
        ensures { OnOk result ((other : AnyPlace) (found : AnyCode) → number_of self.new other found ≡ (if is_mark place code other found then Some number else number_of self.old other found)) }
    {
        self.numbers
            .insert((place_key(place), code.number()), number)?;
        Ok(())
    }
}
