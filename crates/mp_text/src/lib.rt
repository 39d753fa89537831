//! The texts of netlists and the lines of scripts, read and written.
//!
//! `lexing` has the words, numbers and lines of any text, `lines` reads a source line by line, and `edit_lines` writes edits as lines of a script.
//! The files at the top have the statements of a netlist and the lines of a script. Begin with `reading.rt` and `script_line.rt`.
#![tactic(auto)]

mod batch_line;
pub mod edit_lines;
mod edit_word;
pub mod laws;
mod lexing;
mod line_word;
mod lines;
mod picture_options;
mod port_texts;
mod question;
mod question_word;
mod reading;
mod script_edit;
mod script_line;
mod section;
mod single_word;
mod spaced;
mod stated_edit;
mod stated_line;
mod stated_picture;
mod stated_question;
mod statement;
mod text_code;
mod text_error;
mod text_format;
mod text_size;
mod text_state;
mod wire_names;
mod writing;
mod written_lines;

pub use edit_lines::EditText;
pub use lexing::{
    ChangeTexts, LineError, ShortChanges, ToggleTexts, Worded, divided, each_word, first_line,
    first_word, is_plain, name_of, number_word, parts, read_line_words, wire_or_none, word_at,
    word_count, words,
};
pub use lines::{LINE_BYTES, LineReader, TooLong};
pub use picture_options::PictureOptions;
pub use port_texts::wire_name;
pub use question::Question;
pub use reading::{read_lines, read_netlist};
pub use script_line::Line;
pub use spaced::Spaced;
pub use stated_line::read_line;
pub use stated_picture::{MAX_COLUMNS, USUAL_COLUMNS};
pub use stated_question::{MAX_STEPS, USUAL_STEPS};
pub use text_code::TextCode;
pub use text_error::TextError;
pub use text_size::{MAX_SHORT_TEXT, text_limit};
pub use wire_names::WireNames;
pub use writing::{put_netlist, write_netlist};
