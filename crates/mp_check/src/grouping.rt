//! The groups of what is found and what is late.
ghost use Rattle.std.specs.Prelude.{◌≡◌, ◌+◌, ◌<◌, ◌^◌, ◌++◌, IfOk, IfSome, OnOk, filter, map, nat_eq};
ghost use Rattle.indexmap.specs.IndexMap.{get, insert_entry, values};
ghost use Rattle.mp_check.specs.Checks.{IsCheckOf};
ghost use Rattle.mp_check.specs.Grouping.{joined_to, keyed_groups};
ghost use Rattle.mp_check.specs.Keys.{key_of};
ghost use Rattle.mp_check.specs.Problems.{by_first, groups, problems, time_of};
ghost use Rattle.mp_check.specs.Selections.{keeps_finding, keeps_late, selected};
ghost use Rattle.mp_check.specs.declared.problem.Problem.TheVariants.{Found, Late as IsLate};

use crate::checked::Checked;
use crate::group::Group;
use crate::problem::Problem;
use crate::selection::Selection;
use indexmap::IndexMap;
use mp_model::Finding;
use mp_netlist::Netlist;
use mp_questions::Late;
use std::alloc::{AllocError, Global};

/// The groups of what is selected, by the times of their first problems, and where these are the same, in the order of their lines. The error comes if
/// memory runs out.
pub(crate) fn groups_of(
    alloc: Global,
    netlist: &Netlist,
    check: &Checked,
    selection: Selection<'_>,
) -> Result<Vec<Group>, AllocError>
    requires { IsCheckOf netlist.now check.now }
    ensures { IfOk result (λ found. found.items ≡ by_first netlist.now.horizon (groups (problems netlist.now (selected selection.entry)))) }
{
    let problems = problems_of(alloc, netlist, check, selection)?;
    let mut groups = grouped(alloc, problems.as_slice())?;
    // a stable sort, which leaves those of one time in their order
    groups.sort_by_key(
        |group: &Group| -> u32
            ensures { result ≡ time_of group.now.first }
        { group.first.time() },
    )?;
    Ok(groups)
}

/// What is found and what is late, as far as it is selected, in the order of their lines.
fn problems_of(
    alloc: Global,
    netlist: &Netlist,
    check: &Checked,
    selection: Selection<'_>,
) -> Result<Vec<Problem>, AllocError>
    requires { IsCheckOf netlist.now check.now }
    ensures { IfOk result (λ found. found.items ≡ problems netlist.now (selected selection.entry)) }
{
    let mut problems = Vec::new(alloc);
    push_found(&mut problems, netlist, check.findings.as_slice(), selection)?;
    push_late(&mut problems, netlist, check.late.as_slice(), selection)?;
    Ok(problems)
}

/// Appends the findings that are selected.
fn push_found(
    problems: &mut Vec<Problem>,
    netlist: &Netlist,
    findings: &[Finding],
    selection: Selection<'_>,
) -> Result<(), AllocError>
    ensures { OnOk result (problems.new.items ≡ problems.old.items ++ map Found (filter (keeps_finding netlist.now (selected selection.entry)) findings.now)) }
{
    for &finding in findings {
        if selection.keeps_finding(netlist, finding) {
            problems.push(Problem::Found(finding))?;
        }
    }
    Ok(())
}

/// Appends the late data that are selected.
fn push_late(
    problems: &mut Vec<Problem>,
    netlist: &Netlist,
    late: &[Late],
    selection: Selection<'_>,
) -> Result<(), AllocError>
    ensures { OnOk result (problems.new.items ≡ problems.old.items ++ map IsLate (filter (keeps_late netlist.now (selected selection.entry)) late.now)) }
{
    for &one in late {
        if selection.keeps_late(netlist, one) {
            problems.push(Problem::Late(one))?;
        }
    }
    Ok(())
}

/// The groups of some problems, in the order of their first ones.
fn grouped(alloc: Global, problems: &[Problem]) -> Result<Vec<Group>, AllocError>
    ensures { IfOk result (λ found. found.items ≡ groups problems.now) }
{
    let keyed = keyed_groups(alloc, problems)?;
    values_of(alloc, &keyed)
}

/// The groups without their keys.
fn values_of(alloc: Global, keyed: &IndexMap<u64, Group>) -> Result<Vec<Group>, AllocError>
    ensures { IfOk result (λ found. found.items ≡ values keyed.now) }
{
    keyed.values().copied().collect(alloc)
}

/// The groups of some problems, each under its key, in the order of their first ones.
fn keyed_groups(alloc: Global, problems: &[Problem]) -> Result<IndexMap<u64, Group>, AllocError>
    ensures { IfOk result (λ found. found.entries ≡ keyed_groups problems.now) }
{
    let mut groups = IndexMap::new(alloc);
    for &problem in problems {
        join(&mut groups, problem)?;
    }
    Ok(groups)
}

/// Puts a problem into its group.
fn join(groups: &mut IndexMap<u64, Group>, problem: Problem) -> Result<(), AllocError>
    requires room { IfSome (get nat_eq groups.old (key_of problem)) (λ group. group.count + 1 < 2 ^ 64) }
    ensures { OnOk result (groups.new.entries ≡ insert_entry nat_eq groups.old.entries (key_of problem) (joined_to (get nat_eq groups.old (key_of problem)) problem)) }
{
    let key = problem.key();
    let group = match groups.get(&key) {
        Some(group) => group.with(problem),
        None => Group::of(problem),
    };
    groups.insert(key, group)?;
    Ok(())
}
