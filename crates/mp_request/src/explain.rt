//! Texts that explain the codes of the program's answers and the kinds of event module.

mod check_word;
mod checks;
mod computing_kinds;
mod data_kinds;
mod entries;
mod entry;
mod event_kinds;
mod explaining;
mod findings;
pub mod laws;
mod periods;
mod refusals_of_names;
mod refusals_of_values;
mod seat_code;
mod seat_refusals;
mod text_faults;
mod topic;

pub use check_word::CheckWord;
pub use entries::guide;
pub use entry::Entry;
pub use explaining::{put_explanation, put_titles};
pub use seat_code::SeatCode;
pub use topic::Topic;
