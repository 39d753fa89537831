//! What is ahead of a re-evaluation.

use crate::rerun::entered_window::EnteredWindow;

/// What is ahead: the next unit to go through, in a window that was entered; or a time from which on the rest is that of the old run, or the horizon.
#[derive(Clone, Copy)]
pub(crate) enum NextStep {
    Next(u32, EnteredWindow),
    Over(u32),
}
