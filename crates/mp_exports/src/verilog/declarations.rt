//! Levels and wires, as Verilog has them.
ghost use Rattle.std.specs.Prelude.{◌≡◌};

use crate::verilog::names::Identifier;
use mp_netlist::{Netlist, WireId, WireRecord};
use mp_streams::{Failed, Out, Sink, Text};

/// A level of a width.
#[derive(Clone, Copy)]
pub(crate) struct Level {
    pub(crate) width: u32,
    pub(crate) level: u64,
}

impl Text for Level {
    ghost use Rattle.mp_exports.specs.verilog.Declarations.{level_text};

    ghost text = { λ level. level_text level.width level.level };

    fn put_to<S: Sink>(&self, out: &mut Out<S>) -> Result<(), Failed> {
        (self.width, "'d", self.level).put_to(out)
    }
}

/// The bits of a width.
#[derive(Clone, Copy)]
pub(crate) struct Range {
    pub(crate) width: u32,
}

impl Text for Range {
    ghost use Rattle.mp_exports.specs.verilog.Declarations.{range_text};

    ghost text = { λ range. range_text range.width };

    fn put_to<S: Sink>(&self, out: &mut Out<S>) -> Result<(), Failed> {
        if self.width == 1 {
            return Ok(());
        }
        ("[", self.width.saturating_sub(1), ":0] ").put_to(out)
    }
}

/// A register for the levels of a wire, with the initial one.
#[derive(Clone, Copy)]
pub(crate) struct Register<'a, N> {
    pub(crate) name: N,
    pub(crate) wire: &'a WireRecord,
}

impl<'a, N: Text> Text for Register<'a, N> {
    ghost use Rattle.mp_exports.specs.verilog.Declarations.{register_text};

    ghost text = { λ register. register_text (N.text register.name) register.wire.now };

    fn put_to<S: Sink>(&self, out: &mut Out<S>) -> Result<(), Failed> {
        let width = self.wire.width;
        let initial = Level {
            width,
            level: self.wire.initial,
        };
        let level = (" = ", initial, ";");
        ("  reg ", Range { width }, &self.name, level).put_to(out)
    }
}

/// What the wire of a number is called; nothing if there is none.
#[derive(Clone, Copy)]
pub(crate) struct Wire<'a> {
    pub(crate) netlist: &'a Netlist,
    pub(crate) id: WireId,
}

impl<'a> Text for Wire<'a> {
    ghost use Rattle.mp_exports.specs.verilog.Declarations.{wire_text};

    ghost text = { λ wire. wire_text wire.netlist.now wire.id.0 };

    fn put_to<S: Sink>(&self, out: &mut Out<S>) -> Result<(), Failed> {
        let Some(found) = self.netlist.wire(self.id) else {
            return Ok(());
        };
        let name = found.name.as_str();
        Identifier { name }.put_to(out)
    }
}
