//! What an edit of a netlist leaves as it was, and what has to be evaluated again: definitions, laws, and work as data.

mod entering;
pub mod laws;
mod work;
mod work_entries;
mod work_entry;
mod work_span;

pub use entering::enter;
pub use work::Work;
pub use work_entries::{WorkEntries, block_of, window_end};
pub use work_entry::WorkEntry;
pub use work_span::WorkSpan;
