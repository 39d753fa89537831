//! Who is told that a journal can't be written.

/// Who is told that a journal can't be written.
pub trait JournalNotice: Drop {
    /// Called at most once for a journal, at the write that fails.
    fn journal_failed(&self);
}
