//! Lines that are answered as they come, by whoever answers them.

mod answerer;
mod answering;
mod conversation;
mod talk_fault;

pub use answerer::Answerer;
pub use conversation::converse;
pub use talk_fault::TalkFault;
