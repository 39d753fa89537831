//! What a desk that was served leads to.
use crate::talk::TalkFault;
use mp_desk::EditKeeper;
use mp_meeting::DeskOutcome;
use mp_version::EditSession;

/// What a desk that was served leads to.
#[derive(Drop)]
pub struct Hosted<S: EditSession, K: EditKeeper> {
    /// What became of the desk.
    pub outcome: DeskOutcome<S>,
    /// What keeps its edits.
    pub keeper: K,
    /// How the lines of whoever ran it ended.
    pub talked: Result<(), TalkFault>,
}
