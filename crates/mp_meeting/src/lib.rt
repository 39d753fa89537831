//! Meetings: designers with blocks of lines, and viewers, at one desk, on threads of their own.
//!
//! `meet` opens a desk, has each designer submit the lines of a block while viewers read, and closes the desk. `DesignerTally` and `adjourn` serve those
//! who bring threads of their own.
#![tactic(auto)]

mod designer_tally;
mod meeting;
mod meeting_fault;
mod race;
mod reading;
mod seats;
mod tally;

pub use designer_tally::DesignerTally;
pub use meeting::{Adjourned, DeskOutcome, adjourn, meet};
pub use meeting_fault::MeetingFault;
pub use seats::start_all;
pub use tally::Tally;
