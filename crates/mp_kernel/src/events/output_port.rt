//! An output of a module of width 1.

/// The wire that an output drives, if any, and the delay in units after which it follows the output.
#[derive(Clone, Copy)]
pub struct OutputPort {
    pub wire: Option<u32>,
    pub delay: u16,
}
