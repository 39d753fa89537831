//! Shows a line of a netlist's text that can't be read, with the word at fault and the name nearest to it.
//!
//! `word_places.rt` finds the word if the line is wrong by itself, and `edit_places.rt` with `module_places.rt` if its edit is refused. `fault.rt` puts them
//! together. Begin with `showing.rt`.

mod edit_places;
mod fault;
mod module_parts;
mod module_places;
mod nearest;
mod showing;
mod spans;
mod text_lines;
mod wires;
mod word_place;
mod word_places;

pub use showing::fault_text;
