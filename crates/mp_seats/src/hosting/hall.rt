//! The hall in which a desk is served.
use crate::hosting::door::{Door, Exit};

/// The doors of a desk's seats, how those who wait there learn of its end, and how replies are written.
#[derive(Drop)]
pub struct Hall<D: Door, X: Exit, B> {
    /// A door for each designer.
    pub designers: Vec<D>,
    /// A door for each viewer.
    pub viewers: Vec<D>,
    pub exit: X,
    pub scribe: B,
}
