//! The words, numbers and lines of a text.

mod change_text;
mod division;
mod line;
mod line_error;
mod number;
mod spelling;
mod toggle_texts;
mod wave_line;
mod word;
mod word_list;

pub use division::{divided, parts};
pub use line::{first_line, is_plain, read_line_words};
pub use line_error::LineError;
pub use spelling::is_text;
pub use toggle_texts::ToggleTexts;
pub use wave_line::{ChangeTexts, ShortChanges};
pub use word::{first_word, name_of, word_at, word_count, words};
pub use word_list::{Worded, count_word, each_word, number_word, wire_or_none};
