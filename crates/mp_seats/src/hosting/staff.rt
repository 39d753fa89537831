//! The posts of all seats of a desk.

/// Posts of designers and of viewers.
#[derive(Drop)]
pub(crate) struct Staff<P, Q> {
    pub designers: Vec<P>,
    pub viewers: Vec<Q>,
}
