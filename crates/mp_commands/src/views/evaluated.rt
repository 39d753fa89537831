//! A netlist with its waves.
ghost use Rattle.mp_model.specs.Waves.{AreWavesOf};

use mp_model::Waves;
use mp_netlist::Netlist;
use mp_phase::Crew;

/// A netlist with its waves, and the crew that looks at them.
#[derive(Drop)]
pub struct Evaluated<'a> {
    pub netlist: &'a Netlist,
    pub waves: &'a Waves,
    pub crew: Crew,
    ghost are_waves: { AreWavesOf netlist.now waves.now },
}

impl<'a> Evaluated<'a> {
    /// How many threads make what is asked for: one alone if there are fewer modules than the crew shares out.
    pub(crate) fn threads(&self) -> usize {
        if self.netlist.module_slots() < self.crew.least() {
            return 1;
        }
        self.crew.count() as usize
    }
}
