//! What drives a wire.
use mp_records::ModuleId;

/// What drives a wire: nothing, its stimulus, or an output port of a module.
#[derive(Clone, Copy, PartialEq, Eq)]
pub enum Driver {
    Nothing,
    Stimulus,
    Port(ModuleId, u32),
}
