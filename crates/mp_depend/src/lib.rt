//! What an edit touches, and what has to be evaluated again for it.
//!
//! The files at the top find the modules that an edit touches, what drives each wire, and where the stimuli differ. `work` has the work of an edit as
//! definitions, laws and data (`Work`). `recording` keeps what a re-evaluation leaves on its way: checkpoints and spans of work.
#![tactic(auto)]

mod drivers;
mod marks;
mod old_waves;
mod recording;
mod set_alike;
mod touch;
mod waking;
pub mod work;

pub use drivers::drivers_of;
pub use marks::marks_of;
pub use old_waves::old_from;
pub use recording::{Finished, RerunRecorder, is_old_state, old_state};
pub use set_alike::is_set_alike;
pub use touch::{is_touched, touched};
pub use waking::list_all_asleep;
pub use work::{Work, WorkEntries, WorkEntry, WorkSpan, block_of, enter, window_end};
