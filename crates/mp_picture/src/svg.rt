//! Timing diagrams as SVG.

mod arrow;
mod arrow_group;
mod drawn;
mod elements;
mod found_groups;
mod frame;
mod head;
mod lane;
pub mod laws;
mod leads;
mod mark_numbers;
mod mark_rows;
mod style;
mod svg;
mod svg_drawing;
mod value_group;
mod wire_group;
mod wire_rows;

pub use arrow::{Arrow, WirePoint};
pub use lane::Lane;
pub use svg::{MOST_COLUMNS, put_svg};
pub use wire_group::put_wire_group;
