//! The places of the first changes of waves from a time on.
ghost use Rattle.std.specs.Prelude.{◌≡◌};
ghost use Rattle.mp_exports.specs.vcd.Clauses.{IfOk, length, vec_len};

use crate::vcd::parts::place_at;
use crate::vcd::recorded::Recorded;
use mp_netlist::WireId;
use std::alloc::{AllocError, Global};

/// For each wire by number the place at which its changes from a time on begin.
pub(crate) fn first_places(
    alloc: Global,
    of: Recorded<'_>,
    time: u32,
) -> Result<Vec<usize>, AllocError>
    ensures { IfOk result (λ places. vec_len places ≡ length of.entry.netlist.now.wires) }
{
    let horizon = of.netlist.horizon();
    let mut places = Vec::with_capacity(alloc, of.netlist.wire_slots() as usize)?;
    for number in 0..of.netlist.wire_slots() {
        let place = match of.waves.of(WireId(number)) {
            Some(wave) => place_at(wave, time, horizon),
            None => 0,
        };
        places.push(place)?;
    }
    Ok(places)
}
