//! Which wires and modules have data.
ghost use Rattle.std.specs.Prelude.{◌≡◌};
ghost use Rattle.mp_simulation.specs.run.Widths.{is_bit_module};
ghost use Rattle.mp_simulation.specs.units.DataLevels.{is_data};

use mp_netlist::{ModuleRecord, WireId};
use mp_partition::Region;

/// Whether there is a wire of this number and it has data, that is, its width isn't 1.
pub(crate) fn has_data(netlist: &Region<'_>, wire: WireId) -> bool
    ensures { result ≡ is_data netlist.now wire.0 }
{
    match netlist.wire_width(wire) {
        Some(width) => width != 1,
        None => false,
    }
}

/// Whether all ports of a module have width 1.
pub(crate) fn is_bit_module(netlist: &Region<'_>, found: &ModuleRecord) -> bool
    ensures { result ≡ is_bit_module netlist.now found.now }
{
    netlist.module_width(found) == 1
}
