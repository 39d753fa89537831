//! The modules of the kinds that a netlist has.
ghost use Rattle.std.specs.Prelude.{◌≡◌};
ghost use Rattle.std.specs.List.{flat_map, list_any};
ghost use Rattle.mp_streams.specs.Outgoing.{Writes};
ghost use Rattle.mp_netlist.specs.Circuit.{module_at};
ghost use Rattle.mp_exports.specs.verilog.Kinds.{is_of_kind, kind_section, kind_text, module_word};

use crate::verilog::data_modules::reg_text;
use crate::verilog::event_modules::{arbiter_text, c_text, call_text, select_text, toggle_text};
use crate::verilog::function_modules::{FunctionText, function_module};
use mp_modules::Kind;
use mp_netlist::{ModuleId, Netlist};
use mp_streams::{Failed, Out, Sink, Text};

/// What the module of a kind is called.
pub(crate) fn module_word(kind: Kind) -> &'static str
    ensures { result.now ≡ module_word kind }
{
    match kind {
        Kind::C => "mp_c",
        Kind::Toggle => "mp_toggle",
        Kind::Select => "mp_select",
        Kind::Call => "mp_call",
        Kind::Arbiter => "mp_arbiter",
        Kind::Reg => "mp_reg",
        Kind::Function(function) => function_module(function),
    }
}

/// The Verilog modules of the kinds that occur.
#[derive(Clone, Copy)]
pub(crate) struct KindModules<'a> {
    pub(crate) netlist: &'a Netlist,
}

impl<'a> Text for KindModules<'a> {
    ghost use Rattle.mp_exports.specs.verilog.Kinds.{kinds_text};

    ghost text = { λ modules. kinds_text modules.netlist.now };

    #[tactic(auto, unfolding(crate::specs::verilog::Kinds::kinds_text))]
    fn put_to<S: Sink>(&self, out: &mut Out<S>) -> Result<(), Failed> {
        put_kinds(out, self.netlist, Kind::all())
    }
}

/// Writes the Verilog modules of those of the kinds that occur.
fn put_kinds<S: Sink>(out: &mut Out<S>, netlist: &Netlist, kinds: &[Kind]) -> Result<(), Failed>
    ensures { Writes result out.old out.new (flat_map (kind_section netlist.now) kinds.now) }
{
    for &kind in kinds {
        put_kind(out, netlist, kind)?;
    }
    Ok(())
}

/// Writes the Verilog module of a kind, if the kind occurs.
fn put_kind<S: Sink>(out: &mut Out<S>, netlist: &Netlist, kind: Kind) -> Result<(), Failed>
    ensures { Writes result out.old out.new (kind_section netlist.now kind) }
{
    if !occurs(netlist, kind) {
        return Ok(());
    }
    put_kind_text(out, kind)
}

/// Whether the netlist has a module of this kind.
fn occurs(netlist: &Netlist, kind: Kind) -> bool
    ensures { result ≡ list_any (is_of_kind kind) netlist.now.modules }
{
    for number in 0..netlist.module_slots() {
        if is_of_kind(netlist, ModuleId(number), kind) {
            return true;
        }
    }
    false
}

fn is_of_kind(netlist: &Netlist, id: ModuleId, kind: Kind) -> bool
    ensures { result ≡ is_of_kind kind (module_at netlist.now id.0) }
{
    match netlist.module(id) {
        Some(found) => found.kind.word() == kind.word(),
        None => false,
    }
}

/// Writes the Verilog module of a kind.
fn put_kind_text<S: Sink>(out: &mut Out<S>, kind: Kind) -> Result<(), Failed>
    ensures { Writes result out.old out.new (kind_text kind) }
{
    match kind {
        Kind::C => out.put_text(c_text()),
        Kind::Toggle => out.put_text(toggle_text()),
        Kind::Select => out.put_text(select_text()),
        Kind::Call => out.put_text(call_text()),
        Kind::Arbiter => out.put_text(arbiter_text()),
        Kind::Reg => out.put_text(reg_text()),
        Kind::Function(function) => FunctionText { function }.put_to(out),
    }
}
