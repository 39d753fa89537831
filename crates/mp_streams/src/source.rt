//! What gives bytes.
ghost use Rattle.std.specs.Prelude.{◌≡◌, ◌<◌, ◌≤◌, ℕ, List, Option, length, take, IfOk, MatchResult};
ghost use Rattle.std.specs.Io.KnownBytes.{Consumes, Keeps, IsAtEnd};
ghost use Rattle.mp_streams.specs.StreamFaults.{counted};

use crate::failed::Failed;

/// Gives bytes in order, and counts its faults.
pub trait Source {
    // The bytes that are left, if they are known.
    ghost left: { Self → Option (List ℕ) };

    // The number of faults so far.
    ghost fault_count: { Self → ℕ };

    /// Writes the next bytes to the front of the room and returns how many, 0 only at the end. `Failed` comes if the device fails; then no byte was
    /// given, and there is one more fault.
    fn take(&mut self, room: &mut [u8]) -> Result<usize, Failed>
        requires some { 0 < length room.old }
        ensures count { IfOk result (λ n. n ≤ length room.new) }
        ensures bytes { MatchResult result
            (λ n. Consumes (left self.old) (left self.new) (take n room.new))
            (λ _. Keeps (left self.old) (left self.new)) }
        ensures end { IfOk result (λ n. n ≡ 0 → IsAtEnd (left self.new)) }
        ensures faults { fault_count self.new ≡ counted result (fault_count self.old) };

    /// The number of faults so far.
    fn faults(&self) -> u64
        ensures { result ≡ fault_count self.now };
}
