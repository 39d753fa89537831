//! The outputs of a module of width 1.

use crate::events::output_port::OutputPort;

/// The outputs of a module of width 1. Missing outputs drive no wire.
#[derive(Clone, Copy)]
pub struct OutputPorts {
    pub first: OutputPort,
    pub second: OutputPort,
    pub third: OutputPort,
}
