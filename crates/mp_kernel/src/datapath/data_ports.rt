//! The outputs of a module with data.

use crate::events::{OutputPort, OutputPorts};

/// The outputs of a module with data: the one for data, and those of width 1. A port that the module doesn't have drives no wire.
#[derive(Clone, Copy)]
pub struct DataPorts {
    pub level: OutputPort,
    pub bits: OutputPorts,
}
