//! The lines of a netlist's text.
ghost use Rattle.std.specs.Prelude.{◌≡◌};
ghost use Rattle.mp_text.specs.Clauses.{Some, Writes, wire_line, module_line, stimulus_line, bundle_line};

use crate::lexing::ChangeTexts;
use crate::port_texts::{Ports, wire_name};
use crate::spaced::Spaced;
use mp_netlist::{BundleRecord, ModuleRecord, Netlist, WireRecord};
use mp_streams::{Failed, Out, Sink, Text};

/// Writes the line of a wire.
#[tactic(auto, using(crate::proofs::WriteLemmas::put_line_steps))]
pub fn put_wire<S: Sink>(out: &mut Out<S>, wire: &WireRecord) -> Result<(), Failed>
    ensures { Writes result out.old out.new (wire_line (Some wire.now)) }
{
    let numbers = (" ", wire.width, " ", wire.initial);
    ("wire ", wire.name.as_str(), numbers, "\n").put_to(out)
}

/// Writes the line of a module of the netlist.
pub fn put_module<S: Sink>(
    out: &mut Out<S>,
    netlist: &Netlist,
    part: &ModuleRecord,
) -> Result<(), Failed>
    ensures { Writes result out.old out.new (module_line netlist.now (Some part.now)) }
{
    let params = Spaced {
        items: part.params.as_slice(),
    };
    let inputs = Ports {
        netlist,
        ports: part.inputs.as_slice(),
    };
    let outputs = Ports {
        netlist,
        ports: part.outputs.as_slice(),
    };
    let start = ("module ", part.name.as_str(), " ", part.kind.word());
    (start, (params, " :", inputs), (" >", outputs, "\n")).put_to(out)
}

/// Writes the line of a wire's stimulus, if it has one.
#[tactic(auto, using(crate::proofs::WriteLemmas::stimulus_pieces))]
pub fn put_stimulus<S: Sink>(out: &mut Out<S>, wire: &WireRecord) -> Result<(), Failed>
    ensures { Writes result out.old out.new (stimulus_line (Some wire.now)) }
{
    let Some(stimulus) = &wire.stimulus else {
        return Ok(());
    };
    let changes = ChangeTexts {
        changes: stimulus.as_slice(),
    };
    ("stim ", wire.name.as_str(), changes, "\n").put_to(out)
}

/// Writes the line of a bundle of the netlist.
#[tactic(auto, using(crate::proofs::WriteLemmas::put_line_steps))]
pub fn put_bundle<S: Sink>(
    out: &mut Out<S>,
    netlist: &Netlist,
    bundle: &BundleRecord,
) -> Result<(), Failed>
    ensures { Writes result out.old out.new (bundle_line netlist.now (Some bundle.now)) }
{
    let request = (" ", wire_name(netlist, bundle.request));
    let acknowledge = (" ", wire_name(netlist, bundle.acknowledge));
    let payload = (" ", wire_name(netlist, bundle.payload));
    let start = ("bundle ", bundle.name.as_str());
    (
        start,
        (request, acknowledge, payload),
        (" ", bundle.setup, "\n"),
    )
        .put_to(out)
}
