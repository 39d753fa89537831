//! Copies of a netlist.
use crate::netlist::Netlist;
use std::alloc::AllocError;

impl Netlist {
    ghost use Rattle.std.specs.Prelude.{◌≡◌, IfOk};

    /// A copy of the netlist.
    pub fn copy(&self) -> Result<Netlist, AllocError>
        ensures { IfOk result (λ netlist. netlist ≡ self.now) }
    {
        Ok(Netlist {
            format: self.format,
            horizon: self.horizon,
            wires: self.wires.copy()?,
            modules: self.modules.copy()?,
            bundles: self.bundles.copy()?,
        })
    }
}
