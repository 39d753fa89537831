//! The people of a desk that was served.
use crate::talk::TalkFault;
use mp_desk::{DeskName, Viewer};
use mp_meeting::DesignerTally;

/// The people of a desk that was served, and how the lines of whoever ran it ended.
#[derive(Drop)]
pub(crate) struct Served<L: DeskName> {
    pub sittings: Vec<DesignerTally<L>>,
    pub viewers: Vec<Viewer<L>>,
    pub own: Viewer<L>,
    pub talked: Result<(), TalkFault>,
}
