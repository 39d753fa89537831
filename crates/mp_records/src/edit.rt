//! The edits of a netlist.
use crate::batch::Batch;
use crate::single_edit::SingleEdit;

/// A change of a netlist, which is made or refused as a whole.
#[derive(Drop)]
pub enum Edit {
    /// A change of one thing.
    Single(SingleEdit),
    /// 1 to 256 changes, each made on the netlist after those before it.
    Batch(Batch),
}
