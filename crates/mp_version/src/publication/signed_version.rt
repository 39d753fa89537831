//! What a reader takes.
use crate::publication::edit_authors::EditAuthors;
use crate::version::Version;
use std::sync::Arc;

/// A version that was read, and who made its edits.
#[derive(Drop)]
pub struct SignedVersion {
    pub version: Arc<Version>,
    /// A number for each edit of the version.
    pub authors: EditAuthors,
}
