//! The report of a netlist.
ghost use Rattle.std.specs.Prelude.{◌≡◌, ◌++◌};
ghost use Rattle.mp_report.specs.Clauses.{IfOk, OnOk, map, AllZip, flat_map, AreWavesOf, findings, found_over, found_by_place, finding_at};

use crate::places::{found_at_place, places};
use mp_model::{Finding, Findings, Place, Waves};
use mp_netlist::Netlist;
use rayon::prelude::*;
use std::alloc::{AllocError, Global};
use std::thread::Threads;

/// The findings of a netlist, given its waves: by time, then the modules by number and the bundles by number, then by the numbers of the codes. At
/// most this number of threads look for them, the calling one included; with one no thread is started.
pub fn report<R: Threads + Sync>(
    rt: &R,
    alloc: Global,
    netlist: &Netlist,
    waves: &Waves,
    workers: usize,
) -> Result<Vec<Finding>, AllocError>
    requires { AreWavesOf netlist.now waves.now }
    ensures { IfOk result (λ found. found.items ≡ findings netlist.now) }
{
    let places = places(alloc, netlist)?;
    let lists = found_at_each(rt, alloc, netlist, waves, places.as_slice(), workers)?;
    let mut all = joined(alloc, lists.as_slice())?;
    // a stable sort, which leaves the findings of a time in the order of their places
    all.sort_by_key(
        |finding: &Finding| -> u32
            ensures { result ≡ finding.now.time }
        { finding.time },
    )?;
    Ok(all)
}

/// What is found at each place, in the order of the places.
fn found_at_each<R: Threads + Sync>(
    rt: &R,
    alloc: Global,
    netlist: &Netlist,
    waves: &Waves,
    places: &[Place],
    workers: usize,
) -> Result<Vec<Vec<Finding>>, AllocError>
    requires { AreWavesOf netlist.now waves.now }
    ensures { IfOk result (λ lists. AllZip (λ place list. list.items ≡ map (finding_at place) (found_over netlist.now place)) places.now lists.items) }
{
    places
        .par_iter()
        .with_min_len(least_share(places.len(), workers))
        .map(
            |place: &Place| -> Result<Vec<Finding>, AllocError>
                requires { AreWavesOf netlist.now waves.now }
                ensures { IfOk result (λ list. list.items ≡ map (finding_at place.now) (found_over netlist.entry.now place.now)) }
            { findings_at(alloc, netlist, waves, *place) },
        )
        .collect::<Result<Vec<Vec<Finding>>, AllocError>>(rt, alloc)?
}

/// How many places a thread looks at, at least: so that there are no more threads than workers.
fn least_share(places: usize, workers: usize) -> usize {
    (places / workers.max(1)).max(workers)
}

/// What is found at a place, by time and then by the codes' numbers.
fn findings_at(
    alloc: Global,
    netlist: &Netlist,
    waves: &Waves,
    place: Place,
) -> Result<Vec<Finding>, AllocError>
    requires { AreWavesOf netlist.now waves.now }
    ensures { IfOk result (λ list. list.items ≡ map (finding_at place) (found_over netlist.now place)) }
{
    let found = found_at_place(alloc, netlist, waves, place)?;
    let mut list = Vec::new(alloc);
    for &(time, code) in found.as_slice() {
        list.push(Finding { time, place, code })?;
    }
    Ok(list)
}

/// The findings of all lists, one list after the other.
fn joined(alloc: Global, lists: &[Vec<Finding>]) -> Result<Vec<Finding>, AllocError>
    ensures { IfOk result (λ all. all.items ≡ flat_map (λ list. list.items) lists.now) }
{
    let mut all = Vec::new(alloc);
    for list in lists {
        all.extend_from_slice(list.as_slice())?;
    }
    Ok(all)
}
