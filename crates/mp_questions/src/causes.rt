//! Causes of levels: which changes led to a wire's level, and which modules the time of that passed in.

mod cause;
mod cause_link;
mod driving_port;
mod input_event;
pub mod laws;
mod levels;
mod module_share;
mod moment;
mod path;
mod shares;
mod tracer;
mod why;
mod wire_change;

pub use cause_link::{CauseLink, links};
pub use module_share::ModuleShare;
pub use moment::Moment;
pub use path::{put_path, put_path_since, put_share};
pub use shares::shares_of;
pub use tracer::Tracer;
pub use why::put_why;
pub use wire_change::WireChange;
