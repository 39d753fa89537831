//! What takes bytes.
ghost use Rattle.std.specs.Prelude.{◌≡◌, ◌<◌, ◌≤◌, ℕ, List, Option, length, take, IfOk, MatchResult};
ghost use Rattle.std.specs.Io.KnownBytes.{Appends, Keeps};
ghost use Rattle.mp_streams.specs.StreamFaults.{counted};

use crate::failed::Failed;

/// Takes bytes in order, and counts its faults.
pub trait Sink {
    // The bytes taken so far, if they are known.
    ghost taken: { Self → Option (List ℕ) };

    // The number of faults so far.
    ghost fault_count: { Self → ℕ };

    /// Takes at least one byte from the front, and returns how many. `Failed` comes if the device fails; then no byte was taken, and there is one
    /// more fault.
    fn put(&mut self, bytes: &[u8]) -> Result<usize, Failed>
        requires some { 0 < length bytes.now }
        ensures count { IfOk result (λ n. (0 < n) × (n ≤ length bytes.now)) }
        ensures bytes { MatchResult result
            (λ n. Appends (taken self.old) (taken self.new) (take n bytes.now))
            (λ _. Keeps (taken self.old) (taken self.new)) }
        ensures faults { fault_count self.new ≡ counted result (fault_count self.old) };

    /// The number of faults so far.
    fn faults(&self) -> u64
        ensures { result ≡ fault_count self.now };
}
