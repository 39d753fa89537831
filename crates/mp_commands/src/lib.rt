//! The commands and the questions, which share their texts.
//!
//! `views` has the texts over a netlist and its waves: a `View` is one of them. `answers` answers the questions of scripts and seats. `command_runs` runs a command
//! that writes a view. The files at the top play scripts and hold meetings, and `live` has what lines need that are answered as they come. Begin
//! with `views/view.rt` and `player.rt`.
#![tactic(auto)]

mod answers;
mod command_runs;
mod desk;
pub mod laws;
mod live;
mod meeting_faults;
mod outcome_lines;
mod play;
mod player;
mod replies;
mod script_opening;
mod script_session;
mod sessions;
mod views;

pub use answers::{
    Snapshot, put_accepted, put_answer, put_coded, put_refused, put_too_long, put_unread,
};
pub use command_runs::{
    InputCommand, Options, RunFault, Viewed, exit_status, fault_line, opened, read_opening,
    run_check, run_command, run_view,
};
pub use desk::DeskCommand;
pub use live::{LiveOutcome, Prompted, SeatScribe, fault_of_talk, serve_live};
pub use meeting_faults::fault_of_meeting;
pub use mp_engine::Progress;
pub use outcome_lines::put_outcome;
pub use play::Play;
pub use player::Player;
pub use replies::put_reply;
pub use script_opening::open_keeper;
pub use script_session::ScriptSession;
pub use sessions::Sessions;
pub use views::{
    AskedPicture, CausePicture, Charset, CheckAsked, Drawing, Evaluated, MeasureLines, Numerals,
    PathLines, PictureText, Selection, TimeRange, View, WhyLines, put_wave_line, put_wave_lines,
};
