//! What was found over a span of time.

use mp_modules::{FindingCode, FindingSet};
use std::alloc::{AllocError, Global};
use std::marker::Model;

/// Pairs of a time and a code that was found then.
#[derive(Drop)]
pub struct Findings {
    items: Vec<(u32, FindingCode)>,
}

impl Model for Findings {
    ghost use Rattle.std.specs.Prelude.{ℕ, List};
    ghost use Rattle.mp_modules.specs.declared.finding_code.FindingCode.{FindingCode};

    ghost Value = { List (ℕ × FindingCode) };

    ghost view = { λ findings. findings.items.items };
}

impl Findings {
    ghost use Rattle.std.specs.Prelude.{◌≡◌, ◌++◌, ◌∷◌, [], OnOk, if◌then◌else◌};
    ghost use Rattle.mp_model.specs.response.Span.{findings_of};

    /// No findings. It takes no memory.
    pub fn none(alloc: Global) -> Self
        ensures { result ≡ [] }
    {
        Findings {
            items: Vec::new(alloc),
        }
    }

    /// These findings.
    pub fn from_vec(items: Vec<(u32, FindingCode)>) -> Self
        ensures { result ≡ items.items }
    {
        Findings { items }
    }

    /// The list that they are.
    pub fn into_vec(self) -> Vec<(u32, FindingCode)>
        ensures { result.items ≡ self }
    {
        let Findings { items } = self;
        items
    }

    pub fn as_slice(&self) -> &[(u32, FindingCode)]
        ensures { result.now ≡ self.now }
    {
        self.items.as_slice()
    }

    /// The codes of a set too, by number, as found at a time.
    pub fn extend(&mut self, time: u32, set: FindingSet) -> Result<(), AllocError>
        ensures ok { OnOk result (self.new ≡ self.old ++ findings_of time set) }
    {
        if set == FindingSet::empty() {
            return Ok(());
        }
        for code in FindingCode::by_number() {
            self.push_if(time, code, set.contains(code))?;
        }
        Ok(())
    }

    fn push_if(&mut self, time: u32, code: FindingCode, found: bool) -> Result<(), AllocError>
        ensures ok { OnOk result (self.new ≡ self.old ++ (if found then (time, code) ∷ [] else [])) }
    {
        if !found {
            return Ok(());
        }
        self.items.push((time, code))?;
        Ok(())
    }
}
