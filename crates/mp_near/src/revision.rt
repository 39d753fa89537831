//! A netlist with its run, and what an edit made of it.

use mp_netlist::Netlist;
use mp_partition::Run;

/// A netlist before an edit with its run, and the netlist after the edit with its least delay.
#[derive(Clone, Copy)]
pub(crate) struct Revision<'a> {
    pub old: &'a Netlist,
    pub run: &'a Run,
    pub new: &'a Netlist,
    pub least: u32,
}
