//! Writing a netlist's text.
ghost use Rattle.std.specs.Prelude.{◌≡◌, ◌≤◌, ◌++◌};
ghost use Rattle.mp_text.specs.Clauses.{IfOk, OnOk, length, Appends, Writes, IsCircuit, text_limit, IsReadAs, format_line, stands_fourth, written, written_format};
ghost use Rattle.std.specs.List.{list_any};
ghost use Rattle.mp_netlist.specs.Circuit.{module_at};

use crate::section::{Section, SectionLines};
use crate::text_format::{MAX_FIRST_HORIZON, needs_fourth};
use mp_netlist::{Format, ModuleId, Netlist};
use mp_streams::{Failed, Out, Sink, Text, WriteSink};
use std::alloc::{AllocError, Global};

/// The text of a netlist: `format 4` if that is its format or a kind of module needs it, or `format 2` if its horizon is over 65,536, its horizon, then
/// its wires, modules, stimuli (by wire) and bundles, each ordered by number and only those that exist, with single spaces, and a line feed after each
/// line. Numbers have no leading zeros, and every output has its delay. If the text is not longer than its format allows, it is read as a netlist with
/// the same records, though perhaps under other numbers, of the format in which it is written.
#[tactic(auto, using(crate::proofs::RoundTripLemmas::written_is_read))]
pub fn write_netlist(alloc: Global, netlist: &Netlist) -> Result<Vec<u8>, AllocError>
    ensures text { IfOk result (λ text. text.items ≡ written netlist.now) }
    ensures read { IfOk result (λ text. length text.items ≤ text_limit text.items → IsReadAs text.items netlist.now) }
{
    let mut out = Out::new(alloc, WriteSink::new(Vec::new(alloc)))?;
    match put_whole(&mut out, netlist) {
        Ok(()) => Ok(out.into_sink().into_inner()),
        Err(Failed) => Err(AllocError),
    }
}

/// Writes the text of a netlist and passes all of it on to the sink.
fn put_whole<S: Sink>(out: &mut Out<S>, netlist: &Netlist) -> Result<(), Failed>
    ensures whole { OnOk result (Appends out.old.taken out.new.taken (out.old.held ++ written netlist.now)) }
    ensures form { IsCircuit netlist.now }
{
    put_netlist(out, netlist)?;
    out.flush()
}

/// Writes the same text as `write_netlist`, piece by piece. It takes no memory. `Failed` comes as in `Out::put_bytes`.
pub fn put_netlist<S: Sink>(out: &mut Out<S>, netlist: &Netlist) -> Result<(), Failed>
    ensures written { Writes result out.old out.new (written netlist.now) }
    ensures form { IsCircuit netlist.now }
{
    let horizon = netlist.horizon();
    let head = (
        format_text(written_format(netlist), horizon),
        "horizon ",
        horizon,
        "\n",
    );
    let wires = SectionLines::new(netlist, Section::Wires);
    let modules = SectionLines::new(netlist, Section::Modules);
    let stimuli = SectionLines::new(netlist, Section::Stimuli);
    let bundles = SectionLines::new(netlist, Section::Bundles);
    (head, wires, modules, (stimuli, bundles)).put_to(out)
}

/// The format in which a netlist is written.
fn written_format(netlist: &Netlist) -> Format
    ensures { result ≡ written_format netlist.now }
{
    if has_fourth(netlist) {
        Format::Large
    } else {
        netlist.format()
    }
}

/// Whether a netlist has a kind of module that a text has only in format 4.
fn has_fourth(netlist: &Netlist) -> bool
    ensures { result ≡ list_any stands_fourth netlist.now.modules }
{
    for number in 0..netlist.module_slots() {
        if stands_fourth(netlist, ModuleId(number)) {
            return true;
        }
    }
    false
}

fn stands_fourth(netlist: &Netlist, id: ModuleId) -> bool
    ensures { result ≡ stands_fourth (module_at netlist.now id.0) }
{
    match netlist.module(id) {
        Some(found) => needs_fourth(found.kind),
        None => false,
    }
}

/// The line `format`, if a netlist of this format and horizon needs one.
fn format_text(format: Format, horizon: u32) -> &'static str
    ensures { result.now ≡ format_line format horizon }
{
    match format {
        Format::Large => "format 4\n",
        Format::Standard if u64::from(horizon) > MAX_FIRST_HORIZON => "format 2\n",
        Format::Standard => "",
    }
}
