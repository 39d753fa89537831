//! What a picture shows.
use crate::columns::Columns;
use crate::numerals::Numerals;
use mp_model::{Finding, Waves};
use mp_netlist::{Netlist, WireId};

/// What a picture shows of a netlist: these wires in their order, over these columns, with levels in these numerals, and what the report
/// finds in the columns.
#[derive(Clone, Copy)]
pub struct Picture<'a> {
    pub netlist: &'a Netlist,
    /// The levels of the netlist's wires.
    pub waves: &'a Waves,
    /// All that the report finds, in its order.
    pub findings: &'a [Finding],
    pub wires: &'a [WireId],
    pub columns: Columns,
    pub numerals: Numerals,
}
