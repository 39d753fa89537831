//! The seats of a live desk: lines come, and are answered by one who submits edits or only looks.
//!
//! `talk` answers lines as they come. The files at the top answer the lines of one seat, `hosting` serves all seats of a desk on threads, and
//! `pipes` has their named pipes. `journal` appends each accepted edit to a file before anybody is shown it, so that a desk can begin again. Begin with `seat.rt`.
#![tactic(auto)]

pub mod hosting;
pub mod journal;
mod occupant;
mod pipes;
mod refusal;
mod reply;
mod reply_writer;
mod seat;
mod talk;
mod width;

pub use hosting::{Door, Ended, Exit, Hall, HostFault, Hosted, Places, SeatName, SeatPlace, host};
pub use journal::{Journal, JournalNotice, ReplayFault, journaled, make_again};
pub use occupant::Occupant;
pub use pipes::Pipes;
pub use refusal::Refusal;
pub use reply::Reply;
pub use reply_writer::ReplyWriter;
pub use seat::Seat;
pub use talk::{Answerer, TalkFault, converse};
