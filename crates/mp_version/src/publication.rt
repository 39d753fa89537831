//! How versions are published, and what readers know of their history.
//!
//! A `Publication` shows one version at a time to all who read it by a `Pass`, without waiting. A history, which exists only in proofs, has each version
//! with the author of its last edit: a `LogWriter` writes it, and `LogPrefix` and `Authors` are what is known of it. Begin with
//! `specs/publication/Chronicles.antt`; `chronicle` has the rule of the history, and `publishing` that of the publication.

mod authors;
mod beginning;
mod chronicle;
mod edit_authors;
mod log_prefix;
mod log_writer;
mod pass;
mod publication;
mod publishing;
mod showing;
mod signatures;
mod signed_version;

pub use authors::Authors;
pub use beginning::begin_history;
pub use edit_authors::EditAuthors;
pub use log_prefix::LogPrefix;
pub use log_writer::LogWriter;
pub use pass::{Pass, ReadError};
pub use publication::{NoPlace, Publication};
pub use publishing::Published;
pub use showing::show;
pub use signatures::Signatures;
pub use signed_version::SignedVersion;
