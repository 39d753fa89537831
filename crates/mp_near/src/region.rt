//! A small netlist of what an edit reaches.

mod building;
mod given;
mod likeness;
mod picked;
mod small;

pub(crate) use picked::Picked;
pub(crate) use small::{Small, find_small};
