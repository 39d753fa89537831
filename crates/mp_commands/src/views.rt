//! Texts over a netlist and its waves, which commands write and questions ask for.

mod asked_picture;
mod asked_wires;
mod cause_picture;
mod check_lines;
mod drawing;
mod evaluated;
mod measure_lines;
mod path_lines;
mod picture_text;
mod report_lines;
mod steady_lines;
mod view;
mod wave_lines;
mod why_lines;

pub use asked_picture::AskedPicture;
pub use cause_picture::CausePicture;
pub use drawing::Drawing;
pub use evaluated::Evaluated;
pub use measure_lines::MeasureLines;
pub use mp_check::{CheckAsked, Selection};
pub use mp_picture::{Charset, Numerals};
pub use mp_questions::TimeRange;
pub use path_lines::PathLines;
pub use picture_text::PictureText;
pub use view::View;
pub use wave_lines::{put_wave_line, put_wave_lines};
pub use why_lines::WhyLines;
