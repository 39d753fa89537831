//! Events of inputs.
use crate::causes::wire_change::WireChange;

/// An event of an input: the change of its wire, and the delay after which the input sees it.
#[derive(Clone, Copy, Default, PartialEq, Eq)]
pub struct InputEvent {
    pub change: WireChange,
    /// In units.
    pub delay: u32,
}
