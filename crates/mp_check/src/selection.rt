//! What is selected of what a check finds.
ghost use Rattle.std.specs.Prelude.{◌≡◌, ◌&&◌, bytes_eq, is_none};
ghost use Rattle.std.specs.List.{list_any};
ghost use Rattle.mp_netlist.specs.Circuit.{bundle_named, module_named};
ghost use Rattle.mp_check.specs.Selections.{missing_place};

use crate::names::{bundle_name, module_name, place_name};
use crate::wait::Wait;
use mp_model::Finding;
use mp_netlist::{BundleId, Name, Netlist};
use mp_questions::{Late, TimeRange};

/// A part of what a check finds. Findings and late data are selected by time and by name; deadlocks and notes are of the whole run, and are selected by
/// name alone.
#[derive(Clone, Copy)]
pub struct Selection<'a> {
    pub range: TimeRange,
    /// Names of modules and bundles; if there are none, all modules and bundles are selected.
    pub names: &'a [Name],
}

impl<'a> Selection<'a> {
    ghost use Rattle.std.specs.Prelude.{◌≡◌};
    ghost use Rattle.std.specs.List.{list_any};
    ghost use Rattle.mp_check.specs.Selections.{module_name, has_none, keeps_bundle, keeps_deadlock, keeps_finding, keeps_late, keeps_name, keeps_time, selected};

    /// Whether there are no names, so that all modules and bundles are selected.
    pub(crate) fn has_all(self) -> bool
        ensures { result ≡ has_none self.entry.names.now }
    {
        self.names.is_empty()
    }

    pub(crate) fn keeps_finding(self, netlist: &Netlist, finding: Finding) -> bool
        ensures { result ≡ keeps_finding netlist.now (selected self.entry) finding }
    {
        self.keeps_time(netlist, finding.time)
            && self.keeps_name(place_name(netlist, finding.place))
    }

    pub(crate) fn keeps_late(self, netlist: &Netlist, late: Late) -> bool
        ensures { result ≡ keeps_late netlist.now (selected self.entry) late }
    {
        self.keeps_time(netlist, late.time) && self.keeps_name(bundle_name(netlist, late.bundle))
    }

    /// Whether a deadlock of ports that wait for these wires is selected: one with a module of the names.
    pub(crate) fn keeps_deadlock(self, netlist: &Netlist, waits: &[Wait]) -> bool
        ensures { result ≡ keeps_deadlock netlist.now (selected self.entry) waits.now }
    {
        self.has_all() || self.keeps_waiter(netlist, waits)
    }

    /// Whether the name of one of the modules that wait is asked for.
    fn keeps_waiter(self, netlist: &Netlist, waits: &[Wait]) -> bool
        ensures { result ≡ list_any (λ wait. keeps_name (selected self.entry) (module_name netlist.now wait.waiter.0)) waits.now }
    {
        waits
            .iter()
            .any(|wait| self.keeps_name(module_name(netlist, wait.waiter)))
    }

    /// Whether the note on a bundle is selected.
    pub(crate) fn keeps_bundle(self, netlist: &Netlist, id: BundleId) -> bool
        ensures { result ≡ keeps_bundle netlist.now (selected self.entry) id.0 }
    {
        self.keeps_name(bundle_name(netlist, id))
    }

    fn keeps_time(self, netlist: &Netlist, time: u32) -> bool
        ensures { result ≡ keeps_time netlist.now (selected self.entry) time }
    {
        self.range.contains(netlist.horizon(), time)
    }

    fn keeps_name(self, name: &str) -> bool
        ensures { result ≡ keeps_name (selected self.entry) name.now }
    {
        self.has_all() || has_name(self.names, name)
    }
}

fn has_name(names: &[Name], name: &str) -> bool
    ensures { result ≡ list_any (λ other. bytes_eq other name.now) names.now }
{
    names.iter().any(|other| other.as_str() == name)
}

/// The place, counted from 0, of the first of the names that neither a module nor a bundle has; `None` if each is the name of one.
pub fn missing_place(netlist: &Netlist, names: &[Name]) -> Option<usize>
    ensures { result ≡ missing_place netlist.now names.now }
{
    names
        .iter()
        .position(|name| is_missing(netlist, name.as_str()))
}

fn is_missing(netlist: &Netlist, name: &str) -> bool
    ensures { result ≡ (is_none (module_named netlist.now name.now) && is_none (bundle_named netlist.now name.now)) }
{
    netlist.module_named(name).is_none() && netlist.bundle_named(name).is_none()
}
