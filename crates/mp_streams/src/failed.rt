//! A fault of a device.
use thiserror::Error;

/// The device failed. It took or gave no byte in that call.
#[derive(Clone, Copy, Debug, PartialEq, Eq, Error)]
#[error("the device failed")]
pub struct Failed;
