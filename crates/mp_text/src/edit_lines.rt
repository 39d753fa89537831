//! Edits as lines of a script.

mod edit_text;
pub mod laws;
mod new_ports;
mod pairs;
mod single_text;

pub use edit_text::EditText;
