//! What fixes the list of a netlist's findings.
ghost use Rattle.mp_laws.specs.FindingOrder.{AreInOrder, IsOnlyList};

/// The findings of a netlist rise strictly: by time, at one time the modules by number and then the bundles by number, and at one of
/// them by the number of the code.
pub fn findings_in_order()
    ensures { AreInOrder }
{}

/// No other list in this order has exactly the findings that the rules of the codes give.
pub fn only_findings()
    ensures { IsOnlyList }
{}
