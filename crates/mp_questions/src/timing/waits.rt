//! Which modules and bundles wait at a time.
ghost use Rattle.std.specs.Prelude.{ℕ, suc, slice_index, ◌≡◌, ◌<◌, length, Some, [], codes, if◌then◌else◌};
ghost use Rattle.std.specs.List.{flat_map, range_with_len};
ghost use Rattle.mp_streams.specs.Outgoing.{Writes};
ghost use Rattle.mp_modules.specs.declared.kind.Kind.TheVariants as kinds;
ghost use Rattle.mp_netlist.specs.Circuit.{IsModule, module_at};
ghost use Rattle.mp_model.specs.Waves.{AreWavesOf, state};
ghost use Rattle.mp_questions.specs.timing.Hearing.{HearsPort};
ghost use Rattle.mp_questions.specs.timing.Waits.{waits, module_wait, kind_wait, rendezvous_wait, call_wait, owner_wait, register_wait, input_line};

use crate::timing::apart::apart_since;
use crate::timing::busy::put_bundles;
use crate::timing::client_watch::{ClientWatch, follow};
use crate::timing::delayed_input::{level_at, since};
use crate::timing::input_ports::InputPorts;
use crate::timing::lines::{put_input, put_since};
use crate::timing::missing::missing_input;
use crate::timing::range::read_time;
use crate::timing::wait_moment::WaitMoment;
use mp_model::Waves;
use mp_modules::{Client, Kind};
use mp_netlist::{ModuleId, ModuleRecord, Netlist};
use mp_streams::{Failed, Out, Sink};

/// Writes which modules wait at a time, by number, and then which bundles, given the waves of the netlist: for which wire, and since when.
/// A C waits for the input that hasn't come, since the other one came; a CALL for the done event of the client that it serves, since its
/// request went on; an ARBITER for that of its owner, since the grant, and it keeps the request of a client that waits; a REG holds a
/// level; a bundle that is busy waits for its acknowledge, since its last request. A time at or above the horizon is read as its last unit.
///
/// `Failed` comes if the sink fails; then the sink has a beginning of what was held and of the lines, and nothing is held. It takes no memory. What a
/// C, a REG or a bundle waits for is found by searches in waves; a CALL and an ARBITER are followed once, from event to event.
pub fn put_waits<S: Sink>(
    out: &mut Out<S>,
    netlist: &Netlist,
    waves: &Waves,
    time: u64,
) -> Result<(), Failed>
    requires { AreWavesOf netlist.now waves.now }
    ensures { Writes result out.old out.new (waits netlist.now time) }
{
    let time = read_time(netlist.horizon(), time);
    let at = WaitMoment {
        netlist,
        waves,
        time,
    };
    put_modules(out, &at)?;
    put_bundles(out, &at)
}

/// Writes the lines of the modules.
fn put_modules<S: Sink>(out: &mut Out<S>, at: &WaitMoment<'_>) -> Result<(), Failed>
    ensures { Writes result out.old out.new (flat_map (module_wait at.now.netlist.now at.now.time) (range_with_len 0 (length at.now.netlist.now.modules))) }
{
    for number in 0..at.netlist.module_slots() {
        put_module(out, at, ModuleId(number))?;
    }
    Ok(())
}

/// Writes the lines of a module; nothing if there is none.
fn put_module<S: Sink>(out: &mut Out<S>, at: &WaitMoment<'_>, id: ModuleId) -> Result<(), Failed>
    ensures { Writes result out.old out.new (module_wait at.now.netlist.now at.now.time id.0) }
{
    match at.netlist.module(id) {
        Some(found) => put_kind(out, at, id, found),
        None => Ok(()),
    }
}

fn put_kind<S: Sink>(
    out: &mut Out<S>,
    at: &WaitMoment<'_>,
    id: ModuleId,
    found: &ModuleRecord,
) -> Result<(), Failed>
    requires stands { module_at at.now.netlist.now id.0 ≡ Some found.now }
    requires form { IsModule at.now.netlist.now found.now }
    ensures { Writes result out.old out.new (kind_wait at.now.netlist.now id.0 found.now at.now.time found.now.kind) }
{
    match found.kind {
        Kind::C => put_rendezvous(out, at, found),
        Kind::Call => put_call(out, at, id, found),
        Kind::Arbiter => put_arbiter(out, at, id, found),
        Kind::Reg => put_register(out, at, found),
        Kind::Toggle | Kind::Select | Kind::Function(_) => Ok(()),
    }
}

/// Writes for which input a C waits.
fn put_rendezvous<S: Sink>(
    out: &mut Out<S>,
    at: &WaitMoment<'_>,
    found: &ModuleRecord,
) -> Result<(), Failed>
    requires form { IsModule at.now.netlist.now found.now }
    requires kind { found.now.kind ≡ kinds.C }
    ensures { (m : ℕ) → module_at at.now.netlist.now m ≡ Some found.now → Writes result out.old out.new (rendezvous_wait at.now.netlist.now m found.now at.now.time) }
{
    let _horizon = at.netlist.horizon();
    let ears = InputPorts::of(at, found);
    let Some(port) = missing_input(at, found) else {
        return Ok(());
    };
    let does = " C waits for ";
    if port == 0 {
        return put_input(out, at.netlist, found, does, 0, since(ears.second, at.time));
    }
    put_input(out, at.netlist, found, does, 1, since(ears.first, at.time))
}

/// Writes that a CALL waits for the done event of the client that it serves.
fn put_call<S: Sink>(
    out: &mut Out<S>,
    at: &WaitMoment<'_>,
    id: ModuleId,
    found: &ModuleRecord,
) -> Result<(), Failed>
    requires stands { module_at at.now.netlist.now id.0 ≡ Some found.now }
    requires form { IsModule at.now.netlist.now found.now }
    requires kind { found.now.kind ≡ kinds.Call }
    ensures { Writes result out.old out.new (call_wait at.now.netlist.now id.0 found.now at.now.time) }
{
    let watch = follow(at, id, found);
    match watch.memory.served {
        Client::Nobody => Ok(()),
        Client::First | Client::Second => {
            let taken = watch.marks.first_output;
            put_input(out, at.netlist, found, " CALL waits for ", 2, taken)
        }
    }
}

/// Writes that an ARBITER waits for its owner's done event, and that it keeps the other client's request.
fn put_arbiter<S: Sink>(
    out: &mut Out<S>,
    at: &WaitMoment<'_>,
    id: ModuleId,
    found: &ModuleRecord,
) -> Result<(), Failed>
    requires stands { module_at at.now.netlist.now id.0 ≡ Some found.now }
    requires form { IsModule at.now.netlist.now found.now }
    requires kind { found.now.kind ≡ kinds.Arbiter }
    ensures { Writes result out.old out.new (owner_wait at.now.netlist.now id.0 found.now at.now.time (state at.now.netlist.now id.0 at.now.time).served) }
{
    let watch = follow(at, id, found);
    let does = " ARBITER waits for ";
    match watch.memory.served {
        Client::Nobody => Ok(()),
        Client::First => {
            put_input(out, at.netlist, found, does, 2, watch.marks.first_output)?;
            put_second_kept(out, at, found, watch)
        }
        Client::Second => {
            put_input(out, at.netlist, found, does, 3, watch.marks.second_output)?;
            put_first_kept(out, at, found, watch)
        }
    }
}

/// Writes that an ARBITER keeps the first client's request, if it waits.
fn put_first_kept<S: Sink>(
    out: &mut Out<S>,
    at: &WaitMoment<'_>,
    found: &ModuleRecord,
    watch: ClientWatch,
) -> Result<(), Failed>
    requires form { IsModule at.now.netlist.now found.now }
    requires kind { found.now.kind ≡ kinds.Arbiter }
    ensures { Writes result out.old out.new (if watch.memory.waiting.first then input_line at.now.netlist.now found.now (codes " ARBITER keeps ") 0 watch.marks.first_waiting else []) }
{
    if !watch.memory.waiting.first {
        return Ok(());
    }
    let asked = watch.marks.first_waiting;
    put_input(out, at.netlist, found, " ARBITER keeps ", 0, asked)
}

/// Writes that an ARBITER keeps the second client's request, if it waits.
fn put_second_kept<S: Sink>(
    out: &mut Out<S>,
    at: &WaitMoment<'_>,
    found: &ModuleRecord,
    watch: ClientWatch,
) -> Result<(), Failed>
    requires form { IsModule at.now.netlist.now found.now }
    requires kind { found.now.kind ≡ kinds.Arbiter }
    ensures { Writes result out.old out.new (if watch.memory.waiting.second then input_line at.now.netlist.now found.now (codes " ARBITER keeps ") 1 watch.marks.second_waiting else []) }
{
    if !watch.memory.waiting.second {
        return Ok(());
    }
    let asked = watch.marks.second_waiting;
    put_input(out, at.netlist, found, " ARBITER keeps ", 1, asked)
}

/// Writes what a REG holds.
fn put_register<S: Sink>(
    out: &mut Out<S>,
    at: &WaitMoment<'_>,
    found: &ModuleRecord,
) -> Result<(), Failed>
    requires form { IsModule at.now.netlist.now found.now }
    requires kind { found.now.kind ≡ kinds.Reg }
    ensures { (m : ℕ) → module_at at.now.netlist.now m ≡ Some found.now → Writes result out.old out.new (register_wait at.now.netlist.now m found.now at.now.time) }
{
    let _horizon = at.netlist.horizon();
    let ears = InputPorts::of(at, found);
    if level_at(ears.second, at.time) == level_at(ears.third, at.time) {
        return Ok(());
    }
    let since_held = apart_since(ears.second, ears.third, at.time);
    let level = held_before(ears, found.params.as_slice(), since_held);
    let name = found.name.as_str();
    put_since(out, name, " REG holds ", &level, since_held)
}

/// What a REG that is held since a time holds: its data before that, or its first level if that is 0.
fn held_before(ears: InputPorts<'_>, params: &[u64], since: u32) -> u64
    ensures first { since ≡ 0 → result ≡ slice_index params.now 0 }
    ensures later { (f : ℕ → ℕ) (end e : ℕ) → HearsPort f end ears.entry.first → since ≡ suc e → e < end → result ≡ f e }
{
    if since == 0 {
        return mp_modules::level_at(params, 0);
    }
    level_at(ears.first, since - 1)
}
