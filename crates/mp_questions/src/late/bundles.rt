//! The late data of bundles.
ghost use Rattle.std.specs.Prelude.{◌≡◌, ◌-◌, ◌<◌, ℕ, All, IfOk, Some, map, length};
ghost use Rattle.std.specs.List.{AllZip, filter_map, flat_map, range_with_len};
ghost use Rattle.mp_records.specs.declared.ids.BundleId.{BundleId as Id};
ghost use Rattle.mp_netlist.specs.Circuit.{IsBundle, IsCircuit, bundle_at};
ghost use Rattle.mp_model.specs.Waves.{level};
ghost use Rattle.mp_wave.specs.WaveChanges.{changes_in};
ghost use Rattle.mp_questions.specs.timing.Events.{last_event};
ghost use Rattle.mp_questions.specs.late.Lateness.{all_late, units_behind};
ghost use Rattle.mp_questions.specs.late.Lists.{late_lists};
ghost use Rattle.mp_questions.specs.late.Searching.{bundle_numbers, late_over, late_then};

use crate::late::driven::Driven;
use crate::late::late::Late;
use crate::late::search::{Search, WireTime};
use mp_netlist::{BundleId, BundleRecord};
use mp_wave::WaveChanges;
use rayon::prelude::*;
use std::alloc::{AllocError, Global};
use std::thread::Threads;

/// All data that are late: by time, then by bundle. At most this number of threads look for them, the calling one included; with one no thread is
/// started.
pub fn all_late<R: Threads + Sync>(
    rt: &R,
    alloc: Global,
    of: Driven<'_>,
    workers: usize,
) -> Result<Vec<Late>, AllocError>
    ensures { IfOk result (λ late. late.items ≡ all_late of.entry.netlist.now) }
{
    let lists = late_lists(rt, alloc, of, workers)?;
    let mut all = joined(alloc, lists.as_slice())?;
    // a stable sort, which leaves what is late at a time in the order of the bundles
    all.sort_by_key(
        |late: &Late| -> u32
            ensures { result ≡ late.now.time }
        { late.time },
    )?;
    Ok(all)
}

/// The late data of each bundle by number, each list by time. At most this number of threads look for it, the calling one included; with one no
/// thread is started.
pub fn late_lists<R: Threads + Sync>(
    rt: &R,
    alloc: Global,
    of: Driven<'_>,
    workers: usize,
) -> Result<Vec<Vec<Late>>, AllocError>
    ensures { IfOk result (λ lists. map (λ list. list.items) lists.items ≡ late_lists of.entry.netlist.now) }
{
    let bundles = bundle_ids(alloc, of)?;
    late_at_each(rt, alloc, of, bundles.as_slice(), workers)
}

/// The numbers of all bundles, removed ones among them.
#[tactic(auto, using(crate::proofs::lemmas::late::BundleLemmas::id_steps))]
fn bundle_ids(alloc: Global, of: Driven<'_>) -> Result<Vec<BundleId>, AllocError>
    ensures { IfOk result (λ list. list.items ≡ bundle_numbers of.entry.netlist.now) }
{
    let mut list = Vec::new(alloc);
    for number in 0..of.netlist.bundle_slots() {
        list.push(BundleId(number))?;
    }
    Ok(list)
}

/// What is late at each bundle.
fn late_at_each<R: Threads + Sync>(
    rt: &R,
    alloc: Global,
    of: Driven<'_>,
    bundles: &[BundleId],
    workers: usize,
) -> Result<Vec<Vec<Late>>, AllocError>
    ensures { IfOk result (λ lists. AllZip (λ id list. list.items ≡ late_over of.entry.netlist.now id) bundles.now lists.items) }
{
    bundles
        .par_iter()
        .with_min_len(least_share(bundles.len(), workers))
        .map(
            |id: &BundleId| -> Result<Vec<Late>, AllocError>
                ensures { IfOk result (λ list. list.items ≡ late_over of.entry.netlist.now id.now) }
            { late_over(alloc, of, *id) },
        )
        .collect::<Result<Vec<Vec<Late>>, AllocError>>(rt, alloc)?
}

/// How many bundles a thread looks at, at least: so that there are no more threads than workers.
fn least_share(bundles: usize, workers: usize) -> usize {
    (bundles / workers.max(1)).max(workers)
}

/// All lists, one after the other.
fn joined(alloc: Global, lists: &[Vec<Late>]) -> Result<Vec<Late>, AllocError>
    ensures { IfOk result (λ all. all.items ≡ flat_map (λ list. list.items) lists.now) }
{
    let mut all = Vec::new(alloc);
    for list in lists {
        all.extend_from_slice(list.as_slice())?;
    }
    Ok(all)
}

/// What is late at a bundle, by time; nothing if there is none.
fn late_over(alloc: Global, of: Driven<'_>, id: BundleId) -> Result<Vec<Late>, AllocError>
    ensures { IfOk result (λ list. list.items ≡ late_over of.entry.netlist.now id) }
{
    // Its contract says that the netlist is well formed.
    let _horizon = of.netlist.horizon();
    let Some(bundle) = of.netlist.bundle(id) else {
        return Ok(Vec::new(alloc));
    };
    match of.waves.of(bundle.payload) {
        Some(payload) => late_among(alloc, of, id, bundle, payload.changes()),
        None => Ok(Vec::new(alloc)),
    }
}

/// What is late of these changes of a bundle's data.
fn late_among(
    alloc: Global,
    of: Driven<'_>,
    id: BundleId,
    bundle: &BundleRecord,
    changes: WaveChanges<'_>,
) -> Result<Vec<Late>, AllocError>
    requires form { IsCircuit of.netlist.now }
    requires within { All (λ (c : ℕ × ℕ). c.0 < of.netlist.now.horizon) (changes_in changes) }
    ensures { IfOk result (λ list. list.items ≡ filter_map (late_then of.entry.netlist.now id.0 bundle.now) (map (λ (c : ℕ × ℕ). c.0) (changes_in changes.entry))) }
{
    let mut search = Search::new(alloc, of);
    let mut late = Vec::new(alloc);
    for place in 0..changes.len() {
        let time = changes.time_at(place);
        if let Some(units) = units_behind(&mut search, bundle, time)? {
            late.push(Late {
                time,
                bundle: id,
                units,
            })?;
        }
    }
    Ok(late)
}

/// By how many units a change of a bundle's data is after the last request before it, if it is late.
fn units_behind(
    search: &mut Search<'_>,
    bundle: &BundleRecord,
    time: u32,
) -> Result<Option<u32>, AllocError>
    requires form { IsCircuit search.old.of.netlist.now }
    requires within { time < search.old.of.netlist.now.horizon }
    ensures value { IfOk result (λ units. units ≡ units_behind search.old.of.netlist.now bundle.now time (last_event (level search.old.of.netlist.now bundle.now.request.0) (time - 1))) }
    ensures of { search.new.of ≡ search.old.of }
{
    let before = time.saturating_sub(1);
    let Some(asked) = search
        .counts
        .last_between(search.of, bundle.request, 1, before)
    else {
        return Ok(None);
    };
    let request = WireTime {
        wire: bundle.request,
        time: asked,
    };
    let data = WireTime {
        wire: bundle.payload,
        time,
    };
    if search.is_excused(request, data)? {
        return Ok(None);
    }
    Ok(Some(time - asked))
}
