//! What the changes of a dump are made from.
ghost use Rattle.std.specs.Prelude.{◌≡◌, ◌<◌, ◌≤◌, ℕ, map, slice_index};
ghost use Rattle.mp_netlist.specs.Circuit.{width_of};
ghost use Rattle.mp_model.specs.Waves.{AreWavesOf};

use crate::vcd::portion::Portion;
use mp_model::Waves;
use mp_netlist::Netlist;

/// A netlist with its waves, the width of each wire by number, and how much of the waves is listed at once.
#[derive(Clone, Copy)]
pub(crate) struct Recorded<'a> {
    pub(crate) netlist: &'a Netlist,
    pub(crate) waves: &'a Waves,
    pub(crate) widths: &'a [u32],
    pub(crate) portion: Portion,
    ghost are_waves: { AreWavesOf netlist.now waves.now },
    ghost are_widths: { widths.now ≡ map width_of netlist.now.wires },
    ghost narrow: { (w : ℕ) → slice_index widths.now w ≤ 64 },
    ghost some: { 0 < portion.units },
}
