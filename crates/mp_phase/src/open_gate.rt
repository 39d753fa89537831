//! A gate that is always open.

use crate::gate::Gate;
use mp_netlist::ModuleId;
use std::sync::Wait;

/// A gate that lets every module pass at once.
#[derive(Clone, Copy, Drop)]
pub struct OpenGate;

impl Gate for OpenGate {
    ghost use Rattle.std.specs.Prelude.{true};

    ghost may = { λ gate m from to. true };

    ghost passed = { λ gate m from to. true };

    fn enter<R: Wait>(&self, _rt: &R, _module: ModuleId, _from: u32, _to: u32) {}
}
