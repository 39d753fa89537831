//! The answers to questions, to edits, and to lines that can't be read.

mod answers;
mod asked;
mod edit_answers;
mod short_replies;
mod snapshot;
mod work_lines;

pub use answers::put_answer;
pub use short_replies::{put_accepted, put_coded, put_refused, put_too_long, put_unread};
pub use snapshot::Snapshot;
