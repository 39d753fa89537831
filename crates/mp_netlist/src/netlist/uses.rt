//! The uses of wires by modules and bundles.
use crate::netlist::Netlist;
use mp_records::WireId;

impl Netlist {
    ghost use Rattle.std.specs.Prelude.{◌≡◌};
    ghost use Rattle.std.specs.List.{list_any};
    ghost use Rattle.mp_records.specs.NamedWires.{bundle_names};
    ghost use Rattle.mp_netlist.specs.Slots.{stands_and};
    ghost use Rattle.mp_netlist.specs.Uses.{is_used};

    #[tactic(auto, unfolding(crate::specs::Uses::is_used))]
    /// Whether a module or a bundle names the wire.
    pub(crate) fn is_used(&self, wire: WireId) -> bool
        ensures { result ≡ is_used self.now wire.0 }
    {
        self.modules.name_wire(wire) || self.bundles_name(wire)
    }

    /// Whether one of the bundles names the wire.
    fn bundles_name(&self, wire: WireId) -> bool
        ensures { result ≡ list_any (stands_and (bundle_names wire.0)) self.now.bundles }
    {
        for number in 0..self.bundles.len() {
            if let Some(found) = self.bundles.get(number as u32) {
                if found.names(wire) {
                    return true;
                }
            }
        }
        false
    }
}
