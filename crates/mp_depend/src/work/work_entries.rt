//! The entries of work, one after the other.
ghost use Rattle.std.specs.Prelude.{◌≡◌, ◌+◌, ◌<◌, ◌≤◌, [], ◌++◌, All, IfSome, IfNone, IfOk};
ghost use Rattle.std.specs.VecDeque.{deque_len, deque_capacity};
ghost use Rattle.mp_depend.specs.work.Merges.{IsWorkSpan, end_of_window, rest_of, is_sooner, entries_left, Takes};
ghost use Rattle.mp_depend.specs.work.Work.{block_of};

use crate::work::work_entry::WorkEntry;
use crate::work::work_span::WorkSpan;
use mp_netlist::checkpoint_units;
use std::alloc::{AllocError, Global};
use std::collections::VecDeque;
use std::marker::Model;

/// An iterator over the entries of work, in order. Contracts see the list of the entries that are left. The work spans that have begun are a queue,
/// ordered by the ends of their next windows.
#[derive(Drop)]
pub struct WorkEntries {
    least: u32,
    horizon: u32,
    begun: VecDeque<WorkSpan>,
    waiting: VecDeque<WorkSpan>,
}

impl Model for WorkEntries {
    ghost use Rattle.std.specs.Prelude.{ℕ, ◌+◌, ◌<◌, ◌≤◌, List, All};
    ghost use Rattle.std.specs.VecDeque.{deque_len, deque_capacity};
    ghost use Rattle.mp_depend.specs.declared.work.work_entry.WorkEntry.{WorkEntry};
    ghost use Rattle.mp_depend.specs.work.Merges.{IsWorkSpan, entries_left};

    ghost Value = { List WorkEntry };

    ghost view = { λ left. entries_left left.least left.horizon left.begun.items left.waiting.items };

    ghost invariant = { λ left. (0 < left.least) × All (IsWorkSpan left.horizon) left.begun.items × All (IsWorkSpan left.horizon) left.waiting.items × (deque_len left.begun + deque_len left.waiting ≤ deque_capacity left.begun) };
}

impl WorkEntries {
    /// The entries of work spans that are in order of their first entries.
    pub(crate) fn of(
        alloc: Global,
        least: u32,
        horizon: u32,
        work_spans: Vec<WorkSpan>,
    ) -> Result<Self, AllocError>
        requires least { 0 < least }
        requires work_spans { All (IsWorkSpan horizon) work_spans.items }
        ensures { IfOk result (λ left. left ≡ entries_left least horizon [] work_spans.items) }
    {
        Ok(WorkEntries {
            least,
            horizon,
            begun: VecDeque::with_capacity(alloc, work_spans.len())?,
            waiting: VecDeque::from(work_spans),
        })
    }
}

impl Iterator for WorkEntries {
    ghost use Rattle.std.specs.Iterator.{YieldsFirst, item_count};

    type Item = WorkEntry;

    ghost next_gives = { YieldsFirst (λ left. left) };

    ghost remaining = { item_count (λ left. left) };

    fn next(&mut self) -> Option<WorkEntry> {
        let Some(work_span) = sooner(&mut self.begun, &mut self.waiting) else {
            return None;
        };
        go_on(&mut self.begun, self.least, self.horizon, &work_span);
        Some(WorkEntry {
            module: work_span.module,
            from: work_span.from,
            to: work_span.first_end,
        })
    }
}

/// Puts what is left of a work span after its first entry back into the queue.
fn go_on(begun: &mut VecDeque<WorkSpan>, least: u32, horizon: u32, work_span: &WorkSpan)
    requires room { deque_len begun.old < deque_capacity begun.old }
    requires work_span { IsWorkSpan horizon work_span.now }
    ensures items { begun.new.items ≡ begun.old.items ++ rest_of least horizon work_span.now }
    ensures len { deque_len begun.new ≤ deque_len begun.old + 1 }
    ensures capacity { deque_capacity begun.new ≡ deque_capacity begun.old }
{
    if work_span.first_end < work_span.last_end {
        begun.push_back_reserved(WorkSpan {
            module: work_span.module,
            from: work_span.first_end,
            first_end: window_end(least, horizon, work_span.first_end),
            last_end: work_span.last_end,
        });
    }
}

/// The end of the window that begins at a time before the horizon.
pub fn window_end(least: u32, horizon: u32, from: u32) -> u32
    ensures { result ≡ end_of_window least horizon from }
{
    let (start, wide) = (u64::from(from), u64::from(least));
    let block_end = u64::from(block_of(horizon, from)) + u64::from(checkpoint_units(horizon));
    (start + wide).min(block_end).min(u64::from(horizon)) as u32
}

/// The beginning of the block of a time, in a run up to a horizon.
pub fn block_of(horizon: u32, time: u32) -> u32
    ensures { result ≡ block_of horizon time }
{
    time - time % checkpoint_units(horizon)
}

/// Takes the work span with the first entry: the first one that has begun, or the first one that waits.
fn sooner(begun: &mut VecDeque<WorkSpan>, waiting: &mut VecDeque<WorkSpan>) -> Option<WorkSpan>
    ensures some { IfSome result (λ s. Takes begun.old.items waiting.old.items s begun.new.items waiting.new.items) }
    ensures none { IfNone result ((begun.new.items ≡ []) × (waiting.new.items ≡ []) × (begun.old.items ≡ []) × (waiting.old.items ≡ [])) }
    ensures room { IfSome result (λ _. deque_len begun.new + deque_len waiting.new + 1 ≡ deque_len begun.old + deque_len waiting.old) }
    ensures capacity { deque_capacity begun.new ≡ deque_capacity begun.old }
{
    match (begun.front(), waiting.front()) {
        (Some(one), Some(other)) if !is_sooner(other, one) => begun.pop_front(),
        (Some(_), None) => begun.pop_front(),
        _ => waiting.pop_front(),
    }
}

/// Whether the first entry of one work span comes before that of another.
fn is_sooner(work_span: &WorkSpan, other: &WorkSpan) -> bool
    ensures { result ≡ is_sooner work_span.now other.now }
{
    work_span.first_end < other.first_end
        || work_span.first_end == other.first_end && work_span.module.0 < other.module.0
}
