//! The shares of all modules of a chain of causes.
ghost use Rattle.std.specs.Prelude.{◌≡◌, ◌≢◌, ◌<◌, ◌^◌, ℕ, true, All, Some, IfOk, filter, length, slice_index_or, option_map};
ghost use Rattle.mp_netlist.specs.Circuit.{IsCircuit};
ghost use Rattle.mp_questions.specs.causes.Causes.{port_seen};
ghost use Rattle.mp_questions.specs.causes.Chains.{begin_of, chain_from};
ghost use Rattle.mp_questions.specs.causes.Shares.{shares, shares_above, has_steps, by_units, is_port_of, is_step_in, time_of, units_of};
ghost use Rattle.mp_questions.specs.causes.Noting.{AreByNumber, HasRoom, IsNone, noted, with_step};
ghost use Rattle.mp_questions.specs.declared.causes.module_share.ModuleShare.{ModuleShare as Share};
ghost use Rattle.mp_questions.specs.declared.causes.wire_change.WireChange.{WireChange as Change};

use crate::causes::driving_port::DrivingPort;
use crate::causes::module_share::ModuleShare;
use crate::causes::tracer::Tracer;
use crate::causes::wire_change::WireChange;
use mp_netlist::{ModuleId, Netlist};
use std::alloc::{AllocError, Global};
use std::cmp::Reverse;

/// What is told of a chain of causes above a time.
#[derive(Drop)]
pub(crate) struct ChainShares {
    /// The share of each module above that time, by number.
    pub(crate) shares: Vec<ModuleShare>,
    /// When the whole chain begins: the time of what is set from outside, and 0 if it begins with the start of a module.
    pub(crate) begin: u32,
}

/// The shares in the chain of a change, above a time, and when that chain begins.
pub(crate) fn shares_above(
    alloc: Global,
    tracer: &mut Tracer<'_>,
    last: WireChange,
    from: u32,
) -> Result<ChainShares, AllocError>
    requires form { IsCircuit tracer.old.levels.netlist.now }
    requires from { 0 < last.time }
    requires within { last.time < tracer.old.levels.netlist.now.horizon }
    ensures value { IfOk result (λ found. found.shares.items ≡ shares_above tracer.old.levels.netlist.now from (chain_from tracer.old.levels.netlist.now last.time (Some last))) }
    ensures order { IfOk result (λ found. AreByNumber 0 found.shares.items) }
    ensures begin { IfOk result (λ found. found.begin ≡ begin_of tracer.old.levels.netlist.now (chain_from tracer.old.levels.netlist.now last.time (Some last))) }
{
    let mut shares = no_shares(alloc, tracer.levels.netlist)?;
    let mut begin: u32 = 0;
    let mut next = Some(last);
    while let Some(change) = next {
        let cause = tracer.cause_of(change);
        next = cause.followed();
        begin = cause.begin(change);
        let units = change.time.saturating_sub(time_of(next).max(from));
        note(&mut shares, cause.port_above(from, change), units);
    }
    Ok(ChainShares { shares, begin })
}

/// How the time of some changes divides among modules: the shares of the modules that made them, the most units first, and of equal ones the lesser
/// number. A change took as long as it came after the one that it follows. The error comes if memory runs out.
pub fn shares_of(
    alloc: Global,
    tracer: &mut Tracer<'_>,
    changes: &[WireChange],
) -> Result<Vec<ModuleShare>, AllocError>
    requires form { IsCircuit tracer.old.levels.netlist.now }
    requires within { All (λ (c : Change). (0 < c.time) × (c.time < tracer.old.levels.netlist.now.horizon)) changes.now }
    requires few { length changes.now < 2 ^ 32 }
    ensures value { IfOk result (λ found. found.items ≡ by_units (filter has_steps (shares tracer.old.levels.netlist.now changes.now))) }
    ensures levels { tracer.new.levels ≡ tracer.old.levels }
{
    let mut shares = no_shares(alloc, tracer.levels.netlist)?;
    for &change in changes {
        note_change(tracer, &mut shares, change);
    }
    Ok(by_units(shares))
}

/// Adds the step that a change is to the share of the module that made it.
fn note_change(tracer: &mut Tracer<'_>, shares: &mut Vec<ModuleShare>, change: WireChange)
    requires form { IsCircuit tracer.old.levels.netlist.now }
    requires from { 0 < change.time }
    requires within { change.time < tracer.old.levels.netlist.now.horizon }
    requires room { (m : ℕ) (d : Share) → m < length shares.old.items → HasRoom (2 ^ 32) (slice_index_or shares.old.items m d) }
    ensures places { length shares.new.items ≡ length shares.old.items }
    ensures each { (m : ℕ) (d : Share) → m < length shares.old.items → slice_index_or shares.new.items m d ≡ noted (is_step_in tracer.old.levels.netlist.now m change) (units_of tracer.old.levels.netlist.now change) (slice_index_or shares.old.items m d) }
    ensures levels { tracer.new.levels ≡ tracer.old.levels }
{
    let cause = tracer.cause_of(change);
    let units = change.time - time_of(cause.followed());
    note(shares, cause.port(), units);
}

/// No share of any module.
fn no_shares(alloc: Global, netlist: &Netlist) -> Result<Vec<ModuleShare>, AllocError>
    ensures places { IfOk result (λ found. length found.items ≡ length netlist.now.modules) }
    ensures each { IfOk result (λ found. (m : ℕ) (d : Share) → m < length netlist.now.modules → IsNone m (slice_index_or found.items m d)) }
{
    let mut shares = Vec::with_capacity(alloc, netlist.module_slots() as usize)?;
    for number in 0..netlist.module_slots() {
        shares.push(ModuleShare {
            id: ModuleId(number),
            units: 0,
            steps: 0,
        })?;
    }
    Ok(shares)
}

/// The time of a change, 0 if there is none.
fn time_of(change: Option<WireChange>) -> u32
    ensures { result ≡ time_of change }
{
    match change {
        Some(found) => found.time,
        None => 0,
    }
}

/// Adds a step of this number of units to the share of the module that it comes from, if it comes from one.
fn note(shares: &mut Vec<ModuleShare>, port: Option<DrivingPort<'_>>, units: u32)
    requires room { (m : ℕ) (d : Share) → m < length shares.old.items → is_port_of m (option_map port_seen port) ≡ true → HasRoom units (slice_index_or shares.old.items m d) }
    ensures places { length shares.new.items ≡ length shares.old.items }
    ensures each { (m : ℕ) (d : Share) → m < length shares.old.items → slice_index_or shares.new.items m d ≡ noted (is_port_of m (option_map port_seen port.entry)) units (slice_index_or shares.old.items m d) }
{
    if let Some(found) = port {
        add(shares, found.id, units);
    }
}

/// Adds a step of this number of units to the share of a module.
fn add(shares: &mut Vec<ModuleShare>, id: ModuleId, units: u32)
    requires room { (d : Share) → id.0 < length shares.old.items → HasRoom units (slice_index_or shares.old.items id.0 d) }
    ensures places { length shares.new.items ≡ length shares.old.items }
    ensures here { (d : Share) → id.0 < length shares.old.items → slice_index_or shares.new.items id.0 d ≡ with_step units (slice_index_or shares.old.items id.0 d) }
    ensures others { (m : ℕ) (d : Share) → m ≢ id.0 → slice_index_or shares.new.items m d ≡ slice_index_or shares.old.items m d }
{
    let place = id.0 as usize;
    if place < shares.len() {
        shares[place] = with_step(shares[place], units);
    }
}

/// The share with one more step, of this number of units.
fn with_step(share: ModuleShare, units: u32) -> ModuleShare
    requires { HasRoom units share }
    ensures { result ≡ with_step units share }
{
    ModuleShare {
        id: share.id,
        units: share.units + u64::from(units),
        steps: share.steps + 1,
    }
}

/// The shares that have a step, the most units first, and of equal ones the lesser number.
pub(crate) fn by_units(shares: Vec<ModuleShare>) -> Vec<ModuleShare>
    requires { AreByNumber 0 shares.items }
    ensures { result.items ≡ by_units (filter has_steps shares.items) }
{
    let mut found = shares;
    found.retain(|share| share.steps > 0);
    found.sort_unstable_by_key(|share| (Reverse(share.units), share.id.0));
    found
}
