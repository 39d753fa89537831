//! How much of the waves is listed at once.
ghost use Rattle.std.specs.Prelude.{◌<◌};

use mp_model::Waves;
use mp_netlist::{Netlist, WireId};

/// This number of changes is listed at once for each wire on average, so that each wire is looked at seldom.
const CHANGES_A_WIRE: usize = 8;

/// At least this number of changes is listed at once: few enough to stay in a cache.
const CHANGES_AT_ONCE: usize = 16_384;

/// How much of the waves is listed at once.
#[derive(Clone, Copy)]
pub(crate) struct Portion {
    /// How many units, one at least.
    pub(crate) units: u32,
    /// The average number of changes in a portion.
    pub(crate) changes: usize,
}

impl Portion {
    /// Portions of a number of changes that stays near the processor, and in which wires are looked at less often than they change.
    pub(crate) fn of(netlist: &Netlist, waves: &Waves) -> Portion
        ensures { 0 < result.units }
    {
        let wires = netlist.wire_slots() as usize;
        let most = wires.saturating_mul(CHANGES_A_WIRE).max(CHANGES_AT_ONCE);
        let changes = change_count(netlist, waves);
        let portions = (changes / most).saturating_add(1);
        let units = (netlist.horizon() as usize / portions) as u32;
        Portion {
            units: units.max(1),
            changes: changes / portions,
        }
    }
}

/// How many changes the waves have.
fn change_count(netlist: &Netlist, waves: &Waves) -> usize {
    let mut count: usize = 0;
    for number in 0..netlist.wire_slots() {
        if let Some(wave) = waves.of(WireId(number)) {
            count = count.saturating_add(wave.changes().len());
        }
    }
    count
}
