//! A change of a netlist that is divided.

use crate::parts::partition::Partition;
use mp_netlist::Netlist;
use mp_partition::Run;

/// The netlist before the change, its run, the netlist after the change, and the parts of both.
#[derive(Clone, Copy)]
pub(crate) struct PartsChange<'a> {
    pub old: &'a Netlist,
    pub run: &'a Run,
    pub new: &'a Netlist,
    pub partition: &'a Partition,
}
