//! The work spans of a netlist, by those of a region.
ghost use Rattle.std.specs.Prelude.{◌≡◌, ◌<◌, ℕ, IfOk, length, map};
ghost use Rattle.mp_depend.specs.work.WorkSpans.{work_span_at};
ghost use Rattle.mp_near.specs.region.Regions.{with_number};

use mp_depend::WorkSpan;
use mp_netlist::ModuleId;
use std::alloc::{AllocError, Global};

/// The work spans of a region, with the numbers that its modules have in the netlist.
pub(crate) fn all_work_spans(
    alloc: Global,
    modules: &[u32],
    work_spans: &[WorkSpan],
) -> Result<Vec<WorkSpan>, AllocError>
    requires { (j : ℕ) → j < length work_spans.now → (work_span_at work_spans.now j).«module».0 < length modules.now }
    ensures { IfOk result (λ all. (far : ℕ) → all.items ≡ map (with_number far modules.now) work_spans.now) }
{
    let mut all = Vec::with_capacity(alloc, work_spans.len())?;
    for j in 0..work_spans.len() {
        let found = work_spans[j];
        all.push(WorkSpan {
            module: ModuleId(modules[found.module.0 as usize]),
            from: found.from,
            first_end: found.first_end,
            last_end: found.last_end,
        })?;
    }
    Ok(all)
}
