//! What a part of a netlist gives.

use crate::runs::Checkpoints;
use mp_model::Waves;
use mp_modules::Memory;
use std::alloc::Global;
use std::sync::Arc;

/// The wave of each wire of a part of a netlist up to the horizon, and of each of its modules the last state and those at checkpoints. If no states
/// are kept, none of these are there.
#[derive(Drop)]
pub struct PartRun {
    pub waves: Waves,
    pub ends: Vec<Option<Memory>>,
    pub kept: Vec<Option<Arc<Checkpoints, Global>>>,
}
