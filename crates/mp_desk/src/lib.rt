//! A desk: designers submit edits of one session, and viewers read its versions without waiting.
//!
//! `Desk` has the session, what keeps its edits, its history and the published version.
#![tactic(auto)]

mod beginning;
mod close_refused;
mod designer;
mod desk;
mod desk_parts;
mod desk_refused;
mod desk_size;
mod desk_state;
mod kept_session;
pub mod laws;
mod name;
mod notice;
mod parting;
mod receipt;
mod staffed;
mod staffing;
mod submit_error;
mod unkept;
mod viewer;

pub use close_refused::{CloseCause, CloseRefused};
pub use designer::Designer;
pub use desk::Desk;
pub use desk_parts::DeskParts;
pub use desk_refused::{DeskCause, DeskRefused};
pub use desk_size::{BadDeskSize, DeskSize, MAX_DESIGNERS, MAX_VIEWERS};
pub use kept_session::KeptSession;
pub use mp_version::publication::{EditAuthors, ReadError, SignedVersion};
pub use mp_version::{EditKeeper, NotKept};
pub use name::DeskName;
pub use notice::Notice;
pub use receipt::Receipt;
pub use staffed::Staffed;
pub use submit_error::SubmitError;
pub use unkept::Unkept;
pub use viewer::Viewer;
