//! What is found if a netlist is checked.
ghost use Rattle.std.specs.Prelude.{◌≡◌, IfOk};
ghost use Rattle.std.specs.List.{list_any};
ghost use Rattle.mp_model.specs.Waves.{AreWavesOf};
ghost use Rattle.mp_check.specs.Checks.{IsCheckOf};
ghost use Rattle.mp_check.specs.Selections.{keeps_deadlock, keeps_finding, keeps_late, selected};

use crate::deadlocks::{Deadlock, deadlocks};
use crate::read_wires::read_wires;
use crate::run_end::RunEnd;
use crate::selection::Selection;
use mp_depend::drivers_of;
use mp_model::{Finding, Waves};
use mp_netlist::{Driver, Netlist};
use mp_questions::{Driven, Late, all_late};
use mp_report::report;
use std::alloc::{AllocError, Global};
use std::thread::Threads;

/// What is found if a netlist is checked, and what its notes are written by.
#[derive(Drop)]
pub struct Checked {
    pub(crate) findings: Vec<Finding>,
    pub(crate) late: Vec<Late>,
    pub(crate) deadlocks: Vec<Deadlock>,
    /// What drives each wire, by number.
    pub(crate) drivers: Vec<Driver>,
    /// Whether an input or a bundle names each wire, by number.
    pub(crate) read: Vec<bool>,
}

impl Checked {
    ghost use Rattle.std.specs.Prelude.{◌≡◌};
    ghost use Rattle.mp_check.specs.CheckTexts.{is_wrong};
    ghost use Rattle.mp_check.specs.Checks.{IsCheckOf};
    ghost use Rattle.mp_check.specs.Selections.{selected};

    /// Whether anything that is selected is wrong: something is found, data are late, or there is a deadlock.
    pub fn is_wrong(&self, netlist: &Netlist, selection: Selection<'_>) -> bool
        ensures { IsCheckOf netlist.now self.now → result ≡ is_wrong netlist.now (selected selection.entry) }
    {
        has_finding(self.findings.as_slice(), netlist, selection)
            || has_late(self.late.as_slice(), netlist, selection)
            || has_deadlock(self.deadlocks.as_slice(), netlist, selection)
    }
}

/// Whether one of the findings is selected.
fn has_finding(findings: &[Finding], netlist: &Netlist, selection: Selection<'_>) -> bool
    ensures { result ≡ list_any (keeps_finding netlist.now (selected selection.entry)) findings.now }
{
    findings
        .iter()
        .any(|finding| selection.keeps_finding(netlist, *finding))
}

/// Whether some of the late data are selected.
fn has_late(late: &[Late], netlist: &Netlist, selection: Selection<'_>) -> bool
    ensures { result ≡ list_any (keeps_late netlist.now (selected selection.entry)) late.now }
{
    late.iter().any(|one| selection.keeps_late(netlist, *one))
}

/// Whether one of the deadlocks is selected.
fn has_deadlock(deadlocks: &[Deadlock], netlist: &Netlist, selection: Selection<'_>) -> bool
    ensures { result ≡ list_any (keeps_deadlock netlist.now (selected selection.entry)) deadlocks.now }
{
    deadlocks.iter().any(|deadlock| selection.keeps_deadlock(netlist, deadlock.waits()))
}

/// Checks a netlist, given its waves up to the horizon. At most `workers` threads do it, the calling one included; with 1 none is started. The error
/// comes if memory runs out.
pub fn check<R: Threads + Sync>(
    rt: &R,
    alloc: Global,
    netlist: &Netlist,
    waves: &Waves,
    workers: usize,
) -> Result<Checked, AllocError>
    requires { AreWavesOf netlist.now waves.now }
    ensures { IfOk result (IsCheckOf netlist.now) }
{
    let findings = report(rt, alloc, netlist, waves, workers)?;
    let drivers = drivers_of(alloc, netlist)?;
    let driven = Driven {
        netlist,
        waves,
        drivers: drivers.as_slice(),
    };
    let late = all_late(rt, alloc, driven, workers)?;
    let end = RunEnd::new(netlist, waves, drivers.as_slice());
    let deadlocks = deadlocks(alloc, &end)?;
    let read = read_wires(alloc, netlist)?;
    Ok(Checked {
        findings,
        late,
        deadlocks,
        drivers,
        read,
    })
}
