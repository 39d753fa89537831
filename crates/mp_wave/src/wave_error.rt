//! The reason why a list of pairs isn't a wave.

use thiserror::Error;

/// What is wrong with a pair of a time and a level. If several of these apply, it is the first in this order.
#[derive(Clone, Copy, Debug, PartialEq, Eq, Error)]
pub enum WaveCause {
    /// The time is 0, whose level is the initial one.
    #[error("its time is 0")]
    Time,
    /// The time isn't later than that of the pair before.
    #[error("it is not later than the pair before")]
    Order,
    /// The level is that of the pair before, or the initial one.
    #[error("its level is the one of before")]
    Same,
}

/// The first pair that isn't a change, by its place in the list from 0, and the reason.
#[derive(Clone, Copy, Debug, PartialEq, Eq, Error)]
#[error("pair {place} is no change: {cause}")]
pub struct WaveError {
    pub place: u32,
    pub cause: WaveCause,
}
