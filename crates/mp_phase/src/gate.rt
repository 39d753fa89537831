//! What modules pass before they answer.

use mp_netlist::ModuleId;
use std::sync::Wait;

/// Is passed by a module before it answers for some units, and may make it wait.
pub trait Gate: Drop {
    ghost use Rattle.std.specs.Prelude.{◌≡◌, ℕ, Bool, true};

    /// The module of a number may enter, for the units from one time to before another.
    ghost may: { Self → ℕ → ℕ → ℕ → Bool };

    /// The module of a number has entered, for the units from one time to before another. Code that knows no more of a gate than this trait shows it by
    /// `enter` alone.
    ghost passed: { Self → ℕ → ℕ → ℕ → Bool };

    /// The module is about to answer for the units from one time to before another.
    fn enter<R: Wait>(&self, rt: &R, module: ModuleId, from: u32, to: u32)
        requires { may self.now «module».0 from to ≡ true }
        ensures { passed self.now «module».0 from to ≡ true };
}
