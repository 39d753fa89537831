//! What a change makes of a part of a netlist.

use mp_depend::WorkSpan;
use mp_partition::Run;

/// The run of a part after a change, and the work spans in which its modules were evaluated again.
#[derive(Drop)]
pub(crate) struct Redone {
    pub run: Run,
    pub work_spans: Vec<WorkSpan>,
}
