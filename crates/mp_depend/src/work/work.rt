//! Work of an evaluation.
ghost use Rattle.std.specs.Prelude.{◌≡◌, IfOk};

use crate::work::work_entries::WorkEntries;
use crate::work::work_span::WorkSpan;
use mp_netlist::Netlist;
use std::alloc::{AllocError, Global};
use std::marker::Model;

/// What was evaluated of a netlist, seen as the list of its entries: one that ends earlier comes first, and of two that end together the one
/// of the lesser module. It is kept as work spans of time, so it takes memory for each time that a module begins to work, and none for
/// each window in which it works on.
#[derive(Drop)]
pub struct Work {
    least: u32,
    horizon: u32,
    work_spans: Vec<WorkSpan>,
}

impl Model for Work {
    ghost use Rattle.std.specs.Prelude.{ℕ, ◌<◌, List, [], All};
    ghost use Rattle.mp_depend.specs.declared.work.work_entry.WorkEntry.{WorkEntry};
    ghost use Rattle.mp_depend.specs.work.Merges.{IsWorkSpan, entries_left};

    ghost Value = { List WorkEntry };

    ghost view = { λ work. entries_left work.least work.horizon [] work.work_spans.items };

    ghost invariant = { λ work. (0 < work.least) × All (IsWorkSpan work.horizon) work.work_spans.items };
}

impl Work {
    ghost use Rattle.std.specs.Prelude.{◌<◌, [], All};
    ghost use Rattle.mp_depend.specs.work.Merges.{IsWorkSpan, entries_left};
    ghost use Rattle.mp_depend.specs.work.WorkSpans.{AreWorkSpans};
    ghost use Rattle.mp_depend.specs.work.Work.{IsWork};

    /// No work.
    pub fn none(alloc: Global) -> Self
        ensures { result ≡ [] }
    {
        Work {
            least: 1,
            horizon: 0,
            work_spans: Vec::new(alloc),
        }
    }

    /// The work of these work spans, which are in order of their first entries. A window ends after the least delay, with its block, or at
    /// the horizon.
    pub(crate) fn of(least: u32, horizon: u32, work_spans: Vec<WorkSpan>) -> Self
        requires least { 0 < least }
        requires work_spans { All (IsWorkSpan horizon) work_spans.items }
        ensures { result ≡ entries_left least horizon [] work_spans.items }
    {
        Work {
            least,
            horizon,
            work_spans,
        }
    }

    /// The work with these work spans, in any order.
    pub fn of_change(old: &Netlist, new: &Netlist, work_spans: Vec<WorkSpan>) -> Self
        requires { AreWorkSpans old.now new.now work_spans.items }
        ensures { IsWork old.now new.now result }
    {
        let mut sorted = work_spans;
        sorted.sort_unstable_by_key(|work_span| (work_span.first_end, work_span.module.0));
        Work::of(new.least_delay(), new.horizon(), sorted)
    }

    /// The entries one after the other. It takes memory for the work spans, and none for the entries.
    pub fn entries(&self) -> Result<WorkEntries, AllocError>
        ensures { IfOk result (λ entries. entries ≡ self.now) }
    {
        let alloc = *self.work_spans.allocator();
        let waiting = Vec::from_slice(alloc, self.work_spans.as_slice())?;
        WorkEntries::of(alloc, self.least, self.horizon, waiting)
    }
}
