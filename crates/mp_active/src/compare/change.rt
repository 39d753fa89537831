//! A change of a netlist.

use mp_netlist::Netlist;
use mp_partition::Run;

/// A netlist with its run, and the netlist after an edit of it, with its least delay.
#[derive(Clone, Copy)]
pub struct Change<'a> {
    pub old: &'a Netlist,
    pub run: &'a Run,
    pub new: &'a Netlist,
    pub least: u32,
}
