//! What is published, and the rule of the publication: each version follows the one before, and all that a place has read.
ghost use Rattle.std.specs.Prelude.{◌≡◌};

use crate::publication::log_prefix::LogPrefix;
use crate::publication::signatures::Signatures;
use crate::version::Version;
use atomic_table::{Join, Split};
use crossbeam_utils::rule::{Outcome, Protocol};
use left_right::Absorb;
use std::alloc::AllocError;
use std::marker::Model;
use std::sync::Arc;

/// The version that readers take, with the prefix of the history that ends with it, and who made its edits. A contract sees that prefix.
#[derive(Drop)]
pub struct Published {
    version: Arc<Version>,
    prefix: LogPrefix,
    signatures: Signatures,
}

impl Model for Published {
    ghost use Rattle.std.specs.Prelude.{◌≡◌, length};
    ghost use Rattle.std.specs.Arc.{arc_value};
    ghost use Rattle.mp_version.specs.publication.Chronicles.{Shown};

    ghost Value = { Shown };

    ghost view = { λ p. p.prefix };

    ghost invariant = { λ p. (arc_value p.version ≡ p.prefix.story) × (p.signatures.book ≡ p.prefix.book) × (length p.signatures.authors ≡ length p.prefix.story.edits) };
}

impl Published {
    ghost use Rattle.std.specs.Prelude.{◌≡◌, length, IfOk};
    ghost use Rattle.std.specs.Arc.{arc_value};

    /// This version, with the prefix of the history that ends with it, and who made its edits.
    pub fn new(version: Arc<Version>, prefix: LogPrefix, signatures: Signatures) -> Published
        requires story { arc_value version ≡ prefix.story }
        requires book { signatures.book ≡ prefix.book }
        requires each { length signatures.authors ≡ length prefix.story.edits }
        ensures { result ≡ prefix }
    {
        Published {
            version,
            prefix,
            signatures,
        }
    }

    /// The version.
    pub fn version(&self) -> &Arc<Version>
        ensures { arc_value result.now ≡ self.now.story }
    {
        &self.version
    }

    /// The version, and who made its edits.
    pub fn into_parts(self) -> (Arc<Version>, Signatures)
        ensures version { arc_value result.0 ≡ self.story }
        ensures book { result.1.book ≡ self.book }
        ensures each { length result.1.authors ≡ length self.story.edits }
    {
        let Published {
            version,
            prefix: _,
            signatures,
        } = self;
        (version, signatures)
    }

    /// Who made the edits of the version.
    pub fn signatures(&self) -> &Signatures
        ensures book { result.now.book ≡ self.now.book }
        ensures each { length result.now.authors ≡ length self.now.story.edits }
    {
        &self.signatures
    }

    /// The prefix of the history that ends with the version.
    pub fn prefix(&self) -> &LogPrefix
        ensures { result.now ≡ self.now }
    {
        &self.prefix
    }

    pub(crate) fn try_copy(&self) -> Result<Published, AllocError>
        ensures { IfOk result (λ p. p ≡ self.now) }
    {
        Ok(Published {
            version: Arc::try_clone(&self.version)?,
            prefix: self.prefix.again(),
            signatures: self.signatures.try_copy()?,
        })
    }
}

impl Absorb<Published> for Published {
    type State = Published;

    ghost state = { λ p. p };

    ghost applied = { λ _ next. next };

    fn absorb_first(
        &mut self,
        operation: &Published,
        _other: &Published,
    ) -> Result<(), AllocError> {
        *self = operation.try_copy()?;
        Ok(())
    }

    fn absorb_second(&mut self, operation: Published, _other: &Published) -> Result<(), Published> {
        *self = operation;
        Ok(())
    }
}

/// The reads of a place. It exists only in proofs.
pub(crate) type Known = [Published; 0];

/// The rule: what is published follows all that any place has read.
pub(crate) struct Extending;

impl Protocol<Published, Known> for Extending {
    ghost use Rattle.std.specs.Prelude.{[]};
    ghost use Rattle.mp_version.specs.publication.Knowing.{Kept};

    ghost holds = { Kept };

    ghost first = { [] };
}

/// The facts that an entry carries.
pub(crate) struct Enters;

impl Outcome<Published, Known> for Enters {
    ghost use Rattle.mp_version.specs.publication.Knowing.{Entered};

    ghost then = { λ known before now new. Entered known now new };
}

/// The facts that a publication carries.
pub(crate) struct Brings;

impl Outcome<Published, Known> for Brings {
    ghost use Rattle.std.specs.Prelude.{◌≡◌, ◌∷◌, []};

    ghost then = { λ known before now new. new ≡ now ∷ [] };
}

/// How a new place starts from what the writer has published.
pub(crate) struct Starts;

impl Split<Known> for Starts {
    ghost left = { λ known. known };

    ghost right = { λ known. known };
}

impl Join<Known> for Starts {
    ghost use Rattle.std.specs.Prelude.{◌++◌, []};

    ghost both = { λ known note. note ++ known };

    ghost spent = { [] };
}
