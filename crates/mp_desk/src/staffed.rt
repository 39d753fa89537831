//! A desk that was opened.
use crate::designer::Designer;
use crate::desk::Desk;
use crate::name::DeskName;
use crate::viewer::Viewer;
use mp_version::{EditKeeper, EditSession};
use std::sync::Wait;

/// A desk, with its designers and viewers.
#[derive(Drop)]
pub struct Staffed<S: EditSession, K: EditKeeper, L: DeskName, R: Wait + Drop> {
    pub desk: Desk<S, K, L, R>,
    pub designers: Vec<Designer<L>>,
    pub viewers: Vec<Viewer<L>>,
}
