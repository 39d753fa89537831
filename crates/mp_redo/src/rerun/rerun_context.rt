//! Who evaluates again.

use mp_phase::Crew;
use std::alloc::Global;

/// Who evaluates again: the runtime, the allocator, the crew on whose threads modules answer, and the gate that each passes before.
#[derive(Drop)]
pub struct RerunContext<'a, R, G> {
    pub rt: &'a R,
    pub alloc: Global,
    pub crew: &'a Crew,
    pub gate: &'a G,
}
