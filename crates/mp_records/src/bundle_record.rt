//! A bundle as a netlist keeps it.
use crate::ids::WireId;
use crate::name::Name;

/// A bundle of the two-phase bundled data convention (Sutherland 1989): the request and acknowledge wires, the data wire, and the setup: for how many
/// units the data must be there before a request.
#[derive(Clone, Drop)]
pub struct BundleRecord {
    pub name: Name,
    pub request: WireId,
    pub acknowledge: WireId,
    pub payload: WireId,
    pub setup: u32,
}

impl BundleRecord {
    ghost use Rattle.std.specs.Prelude.{◌≡◌};
    ghost use Rattle.mp_records.specs.NamedWires.{bundle_names};

    /// Whether the wire is its request, its acknowledge or its payload.
    pub fn names(&self, wire: WireId) -> bool
        ensures { result ≡ bundle_names wire.0 self.now }
    {
        self.request.0 == wire.0 || self.acknowledge.0 == wire.0 || self.payload.0 == wire.0
    }
}
