//! Whether two versions have the same base and the same edits.
ghost use Rattle.std.specs.Prelude.{◌≡◌, IsTrue, ◌↔◌};

use crate::history::History;
use crate::same_netlist::same_netlist;
use crate::version::Version;
use mp_records::same_place;

impl Version {
    /// Whether the other version has the same base and the same edits.
    pub fn is_same_as(&self, other: &Version) -> bool
        ensures { IsTrue result ↔ (self.now ≡ other.now) }
    {
        same_history(self.edits(), other.edits()) && same_netlist(self.base(), other.base())
    }
}

/// Whether two histories have the same edits in the same order.
fn same_history(a: &History, b: &History) -> bool
    ensures { IsTrue result ↔ (a.now ≡ b.now) }
{
    if a.len() != b.len() {
        return false;
    }
    for index in 0..a.len() {
        if !same_place(a.get(index), b.get(index)) {
            return false;
        }
    }
    true
}
