//! The reason why a netlist is not made.
use thiserror::Error;

/// The reason why a netlist is not made.
#[derive(Clone, Copy, Debug, PartialEq, Eq, Error)]
pub enum NewError {
    #[error("the horizon is not 1 to the longest of its format")]
    BadHorizon,
    #[error("out of memory")]
    OutOfMemory,
}
