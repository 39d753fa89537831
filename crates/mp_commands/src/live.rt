//! What live lines need beside their answers: the replies of seats, a prompt, the fault of a run whose lines ended with one, and what a live desk
//! writes at its end.

mod live_desk;
mod prompted;
mod seat_scribe;
mod signed_edits;
mod talk_faults;

pub use live_desk::{LiveOutcome, serve_live};
pub use prompted::Prompted;
pub use seat_scribe::SeatScribe;
pub use talk_faults::fault_of_talk;
