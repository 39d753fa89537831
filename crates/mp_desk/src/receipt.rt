//! What an accepted edit gives.
use crate::name::DeskName;
use crate::notice::Notice;
use mp_version::Version;
use std::sync::Arc;

/// The version after an accepted edit, and a notice of it.
#[derive(Drop)]
pub struct Receipt<L: DeskName> {
    pub version: Arc<Version>,
    pub notice: Notice<L>,
}
