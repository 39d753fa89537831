//! How many designers and viewers a desk has.
ghost use Rattle.std.specs.Prelude.{◌<◌, ◌≤◌};
ghost use Rattle.mp_desk.specs.declared.desk_size.TheConstants.{MAX_DESIGNERS, MAX_VIEWERS};

use thiserror::Error;

/// How many designers a desk may have.
pub const MAX_DESIGNERS: usize = 8;

/// How many viewers a desk may have.
pub const MAX_VIEWERS: usize = 32;

/// A number of designers that isn't 1 to 8, or a number of viewers that isn't 1 to 32.
#[derive(Clone, Copy, Debug, PartialEq, Eq, Error)]
#[error("a desk has 1 to 8 designers and 1 to 32 viewers")]
pub struct BadDeskSize;

/// How many designers a desk has, 1 to 8, and how many viewers, 1 to 32.
#[derive(Clone, Copy)]
pub struct DeskSize {
    pub designers: usize,
    pub viewers: usize,
    ghost designers_in_range: { (0 < designers) × (designers ≤ MAX_DESIGNERS) },
    ghost viewers_in_range: { (0 < viewers) × (viewers ≤ MAX_VIEWERS) },
}

impl DeskSize {
    ghost use Rattle.std.specs.Prelude.{◌≡◌, is_ok, IfOk};
    ghost use Rattle.mp_desk.specs.DeskSizes.{is_desk_size};

    /// A desk with these numbers of designers and viewers. `BadDeskSize` comes if there aren't 1 to 8 designers, or aren't 1 to 32 viewers.
    pub fn new(designers: usize, viewers: usize) -> Result<DeskSize, BadDeskSize>
        ensures size { IfOk result (λ size. (size.designers ≡ designers) × (size.viewers ≡ viewers)) }
        ensures ok { is_ok result ≡ is_desk_size designers viewers }
    {
        if designers == 0 || designers > MAX_DESIGNERS || viewers == 0 || viewers > MAX_VIEWERS {
            return Err(BadDeskSize);
        }
        Ok(DeskSize { designers, viewers })
    }
}
