//! The times and values of a stimulus.
ghost use Rattle.std.specs.Prelude.{◌≡◌, ◌<◌, ◌^◌, All, IfOk};
ghost use Rattle.mp_records.specs.Stimuli.{is_stimulus};

use crate::stimulus::Stimulus;
use mp_modules::fits_width;
use std::alloc::{AllocError, Global};
use std::marker::Model;

/// Pairs of a time and the value from then on.
#[derive(Drop)]
pub struct Changes {
    pairs: Vec<(u64, u64)>,
}

impl Model for Changes {
    ghost use Rattle.std.specs.Prelude.{List, ℕ};

    ghost Value = { List (ℕ × ℕ) };

    ghost view = { λ changes. changes.pairs.items };
}

impl Changes {
    pub fn new(pairs: Vec<(u64, u64)>) -> Self
        ensures { result ≡ pairs.items }
    {
        Changes { pairs }
    }

    pub fn as_slice(&self) -> &[(u64, u64)]
        ensures { result.now ≡ self.now }
    {
        self.pairs.as_slice()
    }

    #[tactic(auto, unfolding(crate::specs::Stimuli::is_stimulus))]
    /// Whether the times rise from above 0 to below the horizon, and each value fits the width.
    pub fn is_valid(&self, horizon: u64, width: u64) -> bool
        ensures { result ≡ is_stimulus horizon width 0 self.now }
    {
        let mut before = 0;
        for &(time, value) in self.pairs.as_slice() {
            if time <= before || time >= horizon || !fits_width(value, width) {
                return false;
            }
            before = time;
        }
        true
    }

    /// A stimulus of these times and values. The times have to be below 2^32.
    pub fn to_stimulus(&self, alloc: Global) -> Result<Stimulus, AllocError>
        requires { All (λ change. change.0 < 2 ^ 32) self.now }
        ensures { IfOk result (λ stimulus. stimulus ≡ self.now) }
    {
        let mut pairs = Vec::new(alloc);
        for &(time, value) in self.pairs.as_slice() {
            pairs.push((time as u32, value))?;
        }
        Ok(Stimulus::new(pairs))
    }
}
