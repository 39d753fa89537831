//! A bundle that is to be added.
use crate::name::Name;

/// A bundle that is to be added: its name, its wires by name, and its setup in units.
#[derive(Drop)]
pub struct NewBundle {
    pub name: Name,
    pub request: Name,
    pub acknowledge: Name,
    pub payload: Name,
    pub setup: u64,
}
