//! What a dump says before the changes.
ghost use Rattle.mp_exports.specs.vcd.Clauses.{flat_map, Writes, wire_at, AreWavesOf, standing, preamble, part_line, slot_text};

use crate::vcd::lines::put_declaration;
use crate::vcd::timescale::Timescale;
use crate::vcd::value_lines::ValueLine;
use mp_model::Waves;
use mp_netlist::{Netlist, WireId};
use mp_streams::{Failed, InitialBlock, Out, Sink, Text};

const SCOPE: &str = " $end\n$scope module top $end\n";

/// The parts of a dump before the changes.
#[derive(Clone, Copy)]
pub(crate) enum PreamblePart {
    Declarations,
    FirstLevels,
}

/// Writes how long a unit of time is, the declarations, and the level of each wire at time 0.
pub fn put_preamble<S: Sink>(
    out: &mut Out<S>,
    netlist: &Netlist,
    waves: &Waves,
    timescale: Timescale,
) -> Result<(), Failed>
    requires { AreWavesOf netlist.now waves.now }
    ensures { Writes result out.old out.new (preamble timescale netlist.now) }
{
    let declarations = WireLines {
        netlist,
        waves,
        part: PreamblePart::Declarations,
    };
    let levels = WireLines {
        netlist,
        waves,
        part: PreamblePart::FirstLevels,
    };
    let Timescale { number, unit } = timescale;
    let opening = ("$timescale ", number.word(), " ", (unit.word(), SCOPE));
    (opening, (declarations, InitialBlock { levels })).put_to(out)
}

/// The lines of a part for each wire that exists, by number.
#[derive(Clone, Copy)]
struct WireLines<'a> {
    netlist: &'a Netlist,
    waves: &'a Waves,
    part: PreamblePart,
    ghost of_netlist: { AreWavesOf netlist.now waves.now },
}

impl<'a> Text for WireLines<'a> {
    ghost text = { λ lines. flat_map (part_line lines.netlist.now lines.part) (standing lines.netlist.now) };

    #[tactic(auto, using(crate::proofs::lemmas::vcd::StandingLemmas::put_wires_steps))]
    fn put_to<S: Sink>(&self, out: &mut Out<S>) -> Result<(), Failed> {
        for number in 0..self.netlist.wire_slots() {
            self.put_part(out, WireId(number))?;
        }
        Ok(())
    }
}

impl<'a> WireLines<'a> {
    /// Writes the line of a wire, if the wire exists.
    fn put_part<S: Sink>(&self, out: &mut Out<S>, id: WireId) -> Result<(), Failed>
        ensures { Writes result out.old out.new (slot_text (part_line self.now.netlist.now self.now.part) id.0 (wire_at self.now.netlist.now id.0)) }
    {
        let Some(wire) = self.netlist.wire(id) else {
            return Ok(());
        };
        let Some(wave) = self.waves.of(id) else {
            return Ok(());
        };
        match self.part {
            PreamblePart::Declarations => put_declaration(out, id, wire),
            PreamblePart::FirstLevels => out.put_piece(&ValueLine {
                width: wire.width,
                wire: id.0,
                level: wave.initial(),
            }),
        }
    }
}
