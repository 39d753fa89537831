//! The journal of a session: each accepted edit as the line of a script that makes it.
//!
//! `Journal` keeps the edits of a desk, and `make_again` makes the edits of one that was kept. Begin with `journal.rt`.

mod journal;
mod journal_notice;
mod keeping;
pub mod laws;
mod making_again;
mod replay_fault;

pub use journal::Journal;
pub use journal_notice::JournalNotice;
pub use keeping::journaled;
pub use making_again::make_again;
pub use replay_fault::ReplayFault;
