//! The gate that the modules of a region pass.

use mp_netlist::ModuleId;
use mp_phase::Gate;
use std::sync::Wait;

/// A gate that each module of a region passes by its number in the netlist. One has passed it when it has passed the netlist's gate.
#[derive(Drop)]
pub(crate) struct RegionGate<'a, G> {
    pub gate: &'a G,
    pub modules: &'a [u32],
}

impl<G: Gate> Gate for RegionGate<'_, G> {
    ghost use Rattle.std.specs.Prelude.{slice_index_or};

    ghost may = { λ gate m from to. G.may gate.gate.now (slice_index_or gate.modules.now m 0) from to };

    ghost passed = { λ gate m from to. G.passed gate.gate.now (slice_index_or gate.modules.now m 0) from to };

    fn enter<R: Wait>(&self, rt: &R, module: ModuleId, from: u32, to: u32) {
        let number = number_of(self.modules, module);
        self.gate.enter(rt, number, from, to);
    }
}

ghost use Rattle.std.specs.Prelude.{◌≡◌, slice_index_or};

/// The number in the netlist of a module of the region, by these numbers; 0 if it isn't in the region.
fn number_of(modules: &[u32], module: ModuleId) -> ModuleId
    ensures { result.0 ≡ slice_index_or modules.now module.0 0 }
{
    match modules.get(module.0 as usize) {
        Some(number) => ModuleId(*number),
        None => ModuleId(0),
    }
}
