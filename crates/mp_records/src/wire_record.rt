//! A wire as a netlist keeps it.
use crate::name::Name;
use crate::stimulus::Stimulus;

/// A wire: its name, its width in bits, its level from time 0 until something changes it, and its stimulus, if any.
#[derive(Clone, Drop)]
pub struct WireRecord {
    pub name: Name,
    pub width: u32,
    pub initial: u64,
    pub stimulus: Option<Stimulus>,
}
