//! Problems that are alike.
use crate::problem::Problem;

/// All problems of a module or a bundle that have one code.
#[derive(Clone, Copy)]
pub(crate) struct Group {
    pub(crate) first: Problem,
    /// How many there are.
    pub(crate) count: u64,
    /// The time of the last one, in units from 0.
    pub(crate) last: u32,
    /// The most units by which data are late; 0 if these are findings.
    pub(crate) worst: u32,
}

impl Group {
    ghost use Rattle.std.specs.Prelude.{◌≡◌, ◌+◌, ◌<◌, ◌^◌};
    ghost use Rattle.mp_check.specs.Grouping.{alone, joined};

    /// The group of one problem.
    pub(crate) fn of(problem: Problem) -> Self
        ensures { result ≡ alone problem }
    {
        Group {
            first: problem,
            count: 1,
            last: problem.time(),
            worst: problem.units(),
        }
    }

    /// The group with a problem more, the last one.
    pub(crate) fn with(self, problem: Problem) -> Self
        requires room { self.count + 1 < 2 ^ 64 }
        ensures { result ≡ joined self problem }
    {
        Group {
            first: self.first,
            count: self.count + 1,
            last: problem.time(),
            worst: self.worst.max(problem.units()),
        }
    }
}
