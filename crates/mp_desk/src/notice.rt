//! Word of a version.
use crate::name::DeskName;
use mp_version::publication::LogPrefix;
use std::marker::{Model, PhantomData};

/// A notice of a published version, without the version itself. Contracts see the version's story.
#[derive(Drop)]
pub struct Notice<L: DeskName> {
    pub(crate) prefix: LogPrefix,
    pub(crate) number: u32,
    pub(crate) of: PhantomData<L>,
}

impl<L: DeskName> Model for Notice<L> {
    ghost use Rattle.std.specs.Prelude.{◌≡◌, length};
    ghost use Rattle.mp_version.specs.Stories.{Story};

    ghost Value = { Story };

    ghost view = { λ n. n.prefix.story };

    ghost invariant = { λ n. (n.prefix.book ≡ L.history) × (n.number ≡ length n.prefix.story.edits) };
}

impl<L: DeskName> Notice<L> {
    ghost use Rattle.std.specs.Prelude.{◌≡◌, length};

    /// The number of the version.
    pub fn number(&self) -> u32
        ensures { result ≡ length self.now.edits }
    {
        self.number
    }
}
