//! Partitions of a netlist, which read each other only on inbound wires.

mod crossing;
mod division;
mod groups;
mod home;
mod inbound_wires;
mod neighbors;
mod region;

pub use division::{Division, divide};
pub use home::partition_of;
pub use inbound_wires::{InboundWires, heard_by, is_heard};
pub use region::Region;
