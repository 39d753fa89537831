//! Findings and late data.
ghost use Rattle.std.specs.Prelude.{◌≡◌, ◌<◌, ◌^◌};
ghost use Rattle.mp_check.specs.Keys.{place_key};

use mp_model::{Finding, Place};
use mp_questions::Late;

/// How many keys a place has: more than the greatest number of a code.
const KEYS: u64 = 16;

/// What a line of a check says of a module or a bundle at a time.
#[derive(Clone, Copy)]
pub(crate) enum Problem {
    Found(Finding),
    /// Data of a bundle are late.
    Late(Late),
}

impl Problem {
    ghost use Rattle.std.specs.Prelude.{◌≡◌};
    ghost use Rattle.mp_check.specs.Keys.{key_of};
    ghost use Rattle.mp_check.specs.Problems.{place_of, time_of, units_of, word_of};

    /// Its time, in units from 0.
    pub(crate) fn time(self) -> u32
        ensures { result ≡ time_of self }
    {
        match self {
            Problem::Found(finding) => finding.time,
            Problem::Late(late) => late.time,
        }
    }

    /// The module or the bundle.
    pub(crate) fn place(self) -> Place
        ensures { result ≡ place_of self }
    {
        match self {
            Problem::Found(finding) => finding.place,
            Problem::Late(late) => Place::Bundle(late.bundle),
        }
    }

    /// The word of its code.
    pub(crate) fn word(self) -> &'static str
        ensures { result.now ≡ word_of self }
    {
        match self {
            Problem::Found(finding) => finding.code.word(),
            Problem::Late(_) => "late",
        }
    }

    /// By how many units data are late; 0 for a finding.
    pub(crate) fn units(self) -> u32
        ensures { result ≡ units_of self }
    {
        match self {
            Problem::Found(_) => 0,
            Problem::Late(late) => late.units,
        }
    }

    /// A number that it has in common with all problems of its module or bundle and its code, and with no others.
    pub(crate) fn key(self) -> u64
        ensures { result ≡ key_of self }
    {
        match self {
            Problem::Found(finding) => {
                place_key(finding.place) * KEYS + u64::from(finding.code.number())
            }
            Problem::Late(late) => place_key(Place::Bundle(late.bundle)) * KEYS,
        }
    }
}

/// A number of its own for each module and each bundle.
fn place_key(place: Place) -> u64
    ensures value { result ≡ place_key place }
    ensures small { result < 2 ^ 33 }
{
    match place {
        Place::Module(id) => u64::from(id.0) * 2,
        Place::Bundle(id) => u64::from(id.0) * 2 + 1,
    }
}
