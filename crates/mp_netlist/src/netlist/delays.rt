//! The least delay of a netlist.
use crate::netlist::Netlist;
use mp_records::ModuleId;

impl Netlist {
    ghost use Rattle.std.specs.Prelude.{◌≡◌};
    ghost use Rattle.mp_netlist.specs.Delays.{least_delay};

    #[tactic(auto, unfolding(crate::specs::Delays::least_delay))]
    /// The least delay of all outputs that have a wire, in units; the horizon if there is none.
    pub fn least_delay(&self) -> u32
        ensures { result ≡ least_delay self.now }
    {
        match self.modules.least() {
            Some(delay) => delay,
            None => self.horizon,
        }
    }

    /// A module that has the least delay, if one has.
    pub fn fastest(&self) -> ModuleId {
        ModuleId(self.modules.fastest())
    }
}
