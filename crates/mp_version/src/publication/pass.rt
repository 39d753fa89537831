//! A place from which versions are read.
ghost use Rattle.std.specs.Prelude.{◌≡◌, ◌∷◌, MatchResult, MatchOption, ◌≤◌, length};
ghost use Rattle.left_right.specs.Sides.{view};
ghost use Rattle.mp_version.specs.Limits.{max_edits};
ghost use Rattle.mp_version.specs.publication.Knowing.{Covers, OnlyReads};

use crate::publication::log_prefix::LogPrefix;
use crate::publication::publishing::{Enters, Extending, Known, Published};
use crate::version::Version;
use core::mem::replace_with;
use left_right::reader::Reader;
use std::marker::Model;
use thiserror::Error;

pub(crate) type RuledReader = Reader<Published, Known, Extending>;

/// Why nothing was read.
#[derive(Clone, Copy, Debug, PartialEq, Eq, Error)]
pub enum ReadError {
    /// The desk is closed.
    #[error("the desk is closed")]
    Closed,
    /// Memory ran out.
    #[error("out of memory")]
    OutOfMemory,
}

/// A place from which one thread reads. A contract sees what it has read.
#[derive(Drop)]
pub struct Pass {
    pub(crate) reader: RuledReader,
}

impl Model for Pass {
    ghost use Rattle.left_right.specs.Sides as sides;
    ghost use Rattle.mp_version.specs.publication.Knowing.{Known};

    ghost Value = { Known };

    ghost view = { λ p. sides.view p.reader.place };
}

impl Pass {
    /// Looks at what is published, and gives its number and prefix. It waits for nobody, and takes no memory.
    pub(crate) fn look(&mut self) -> Option<(u32, LogPrefix)>
        ensures { MatchOption result (self.new ≡ self.old) (λ f. Covers f.1 self.old × (self.new ≡ f.1 ∷ self.old) × (f.0 ≡ length f.1.story.edits) × (f.0 ≤ max_edits)) }
    {
        replace_with(
            &mut self.reader,
            (),
            |reader: RuledReader, _: ()| looked(reader),
        )
    }

    /// Reads what is published. It waits for nobody.
    pub fn enter(&mut self) -> Result<Published, ReadError>
        ensures { MatchResult result (λ p. Covers p self.old × (self.new ≡ p ∷ self.old)) (λ _. OnlyReads self.old self.new) }
    {
        replace_with(
            &mut self.reader,
            (),
            |reader: RuledReader, _: ()| entered(reader),
        )
    }
}

fn entered(reader: RuledReader) -> (RuledReader, Result<Published, ReadError>)
    ensures { MatchResult result.1 (λ p. Covers p (view reader.place) × (view result.0.place ≡ p ∷ view reader.place)) (λ _. OnlyReads (view reader.place) (view result.0.place)) }
{
    match reader.enter_as::<Enters>() {
        Ok(reading) => {
            let copy = reading.get().try_copy();
            let reader = reading.leave();
            match copy {
                Ok(published) => (reader, Ok(published)),
                Err(_) => (reader, Err(ReadError::OutOfMemory)),
            }
        }
        Err(reader) => (reader, Err(ReadError::Closed)),
    }
}

fn looked(reader: RuledReader) -> (RuledReader, Option<(u32, LogPrefix)>)
    ensures { MatchOption result.1 (view result.0.place ≡ view reader.place) (λ f. Covers f.1 (view reader.place) × (view result.0.place ≡ f.1 ∷ view reader.place) × (f.0 ≡ length f.1.story.edits) × (f.0 ≤ max_edits)) }
{
    match reader.enter_as::<Enters>() {
        Ok(reading) => {
            let published: &Published = reading.get();
            let version: &Version = published.version();
            let number = version.number();
            let prefix = published.prefix().again();
            (reading.leave(), Some((number, prefix)))
        }
        Err(reader) => (reader, None),
    }
}
