//! Pictures: timing diagrams as text, as SVG and as WaveJSON, and a netlist as a graph.
//!
//! The files at the top cut a range of times into columns and draw the rows of a diagram or the nodes of a graph. `svg` draws a diagram as SVG,
//! and `wave_json` writes its waves as WaveJSON. Begin with `diagram.rt`.
#![tactic(auto)]

mod bundle_lines;
mod cell;
mod columns;
mod diagram;
mod edge_port;
mod edges;
mod found;
mod graph;
pub mod laws;
mod layout;
mod level_text;
mod margin;
mod mark;
mod marked_columns;
mod nodes;
mod numerals;
mod picture;
mod place_key;
mod readers;
mod repeated;
mod round;
mod row;
mod ruler;
pub mod svg;
pub mod wave_json;
mod wired_netlist;

pub use cell::{ColumnCell, ColumnEvents, cells};
pub use columns::Columns;
pub use diagram::put_diagram;
pub use found::{found_within, place_name, rows_of};
pub use graph::put_graph;
pub use margin::margin_of;
pub use mark::Charset;
pub use numerals::Numerals;
pub use picture::Picture;
pub use row::{is_still, still_count};
pub use ruler::{last_tick, tick_step};
pub use svg::{Arrow, Lane, MOST_COLUMNS, WirePoint, put_svg, put_wire_group};
pub use wave_json::put_wave_json;
