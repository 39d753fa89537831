//! What is kept of a re-evaluation on its way: states of modules before the borders between blocks, and the work spans in which modules work.

mod checkpoint_overlay;
mod finished;
mod first_overlays;
mod rerun_recorder;
mod states;

pub use finished::Finished;
pub use rerun_recorder::RerunRecorder;
pub use states::{is_old_state, old_state};
