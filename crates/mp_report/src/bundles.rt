//! What is found at a bundle.
ghost use Rattle.std.specs.Prelude.{◌≡◌, ◌-◌, ◌<◌};
ghost use Rattle.mp_report.specs.Clauses.{IsSome, IfOk, flat_map, range_with_len, IsBundle, IsCircuit, wire_at, AreWavesOf, level, bundle_place, is_requested_soon, findings_of, IsAhead, AreAhead, found_over};
ghost use Rattle.mp_report.specs.Bundles.{bundle_set};

use crate::ahead::Ahead;
use crate::watch::Watch;
use mp_model::{Findings, Waves};
use mp_modules::{FindingCode, FindingSet};
use mp_netlist::{BundleId, BundleRecord, Netlist, WireId};
use std::alloc::{AllocError, Global};

/// What is found at a bundle, by time and then by the codes' numbers; nothing if it doesn't exist. Units in which none of its wires changes are
/// passed over.
#[tactic(auto, using(crate::proofs::BundleLemmas::no_bundle_over))]
pub(crate) fn found_at_bundle(
    alloc: Global,
    netlist: &Netlist,
    waves: &Waves,
    id: BundleId,
) -> Result<Findings, AllocError>
    requires { AreWavesOf netlist.now waves.now }
    ensures { IfOk result (λ found. found ≡ found_over netlist.now (bundle_place id.0)) }
{
    let Some(bundle) = netlist.bundle(id) else {
        return Ok(Findings::none(alloc));
    };
    let _horizon = netlist.horizon();
    let first = watch(netlist, waves, bundle);
    found_by(alloc, netlist, bundle, first)
}

/// The wires of a bundle from time 1 on.
fn watch<'a>(netlist: &Netlist, waves: &'a Waves, bundle: &BundleRecord) -> Watch<'a>
    requires waves { AreWavesOf netlist.now waves.now }
    requires form { IsCircuit netlist.now }
    requires stands { IsBundle netlist.now bundle.now }
    ensures { AreAhead netlist.now bundle.now 1 result }
{
    Watch {
        request: ahead(netlist, waves, bundle.request),
        acknowledge: ahead(netlist, waves, bundle.acknowledge),
        payload: ahead(netlist, waves, bundle.payload),
    }
}

/// The changes of a wire that exists, from time 1 on.
#[tactic(auto, using(crate::proofs::WaveLemmas::wave_is))]
fn ahead<'a>(netlist: &Netlist, waves: &'a Waves, wire: WireId) -> Ahead<'a>
    requires waves { AreWavesOf netlist.now waves.now }
    requires form { IsCircuit netlist.now }
    requires stands { IsSome (wire_at netlist.now wire.0) }
    ensures { IsAhead (level netlist.now wire.0) netlist.now.horizon 1 result }
{
    match waves.of(wire) {
        Some(wave) => Ahead::of(wave),
        None => unreachable!(),
    }
}

fn found_by(
    alloc: Global,
    netlist: &Netlist,
    bundle: &BundleRecord,
    first: Watch<'_>,
) -> Result<Findings, AllocError>
    requires { AreAhead netlist.now bundle.now 1 first }
    ensures { IfOk result (λ found. found ≡ flat_map (λ t. findings_of t (bundle_set netlist.now bundle.now t)) (range_with_len 1 (netlist.now.horizon - 1))) }
{
    let horizon = netlist.horizon();
    let mut found = Findings::none(alloc);
    let mut watch = first;
    let mut from = 1;
    while from < horizon {
        let time = watch.next(horizon);
        if time == horizon {
            return Ok(found);
        }
        found.extend(time, found_now(netlist, bundle, watch, time))?;
        watch = watch.since(time);
        from = time + 1;
    }
    Ok(found)
}

/// What is found at a time that no change of its wires comes before.
fn found_now(netlist: &Netlist, bundle: &BundleRecord, watch: Watch<'_>, time: u32) -> FindingSet
    requires ahead { AreAhead netlist.now bundle.now time watch }
    requires within { time < netlist.now.horizon }
    ensures { result ≡ bundle_set netlist.now bundle.now time }
{
    let request = watch.request.changes_at(time);
    let payload = watch.payload.changes_at(time);
    let acknowledge = watch.acknowledge.changes_at(time);
    let busy = watch.request.level != watch.acknowledge.level;
    let soon = is_requested_soon(netlist, bundle, watch.request, time);
    FindingSet::empty()
        .with_if(FindingCode::DataWhileBusy, payload & busy)
        .with_if(FindingCode::Setup, payload & soon)
        .with_if(FindingCode::RequestWhileBusy, request & busy)
        .with_if(FindingCode::AckWhileIdle, acknowledge & !busy)
}

/// Whether there is a request event at a time or, below the horizon, at most the setup after it.
fn is_requested_soon(
    netlist: &Netlist,
    bundle: &BundleRecord,
    request: Ahead<'_>,
    time: u32,
) -> bool
    requires ahead { IsAhead (level netlist.now bundle.now.request.0) netlist.now.horizon time request }
    requires within { time < netlist.now.horizon }
    ensures { result ≡ is_requested_soon netlist.now bundle.now time }
{
    let horizon = netlist.horizon();
    let event = request.next(horizon);
    (event < horizon) & (event - time <= bundle.setup)
}
