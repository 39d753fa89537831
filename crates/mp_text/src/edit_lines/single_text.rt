//! Edits of one thing as texts.
ghost use Rattle.std.specs.Prelude.{◌≡◌, ◌∷◌, ◌++◌};
ghost use Rattle.std.specs.Fmt.{decimal};
ghost use Rattle.mp_records.specs.declared.single_edit.SingleEdit.TheVariants.{AddWire, AddBundle};
ghost use Rattle.mp_streams.specs.Outgoing.{Writes};
ghost use Rattle.mp_text.specs.edit_lines.EditLines.{single_text, wire_word, module_text, stimulus_text};

use crate::Spaced;
use crate::edit_lines::new_ports::{NewInputs, NewOutputs};
use crate::edit_lines::pairs::Pairs;
use mp_records::{Boxed, Name, NewBundle, NewModule, SingleEdit};
use mp_streams::{Failed, Out, Sink, Text};

/// An edit of one thing, as in a line of a script.
#[derive(Clone, Copy)]
pub(crate) struct SingleText<'a> {
    pub edit: &'a SingleEdit,
}

impl<'a> Text for SingleText<'a> {
    ghost text = { λ line. single_text line.edit.now };

    fn put_to<S: Sink>(&self, out: &mut Out<S>) -> Result<(), Failed> {
        match self.edit {
            SingleEdit::AddWire { name, width, level } => put_wire(out, name, *width, *level),
            SingleEdit::AddModule(new) => put_module(out, new.get()),
            SingleEdit::AddBundle(new) => put_bundle(out, new.get()),
            SingleEdit::RemoveWire { wire } => put_named(out, "remove wire ", wire),
            SingleEdit::RemoveModule { module } => put_named(out, "remove module ", module),
            SingleEdit::RemoveBundle { bundle } => put_named(out, "remove bundle ", bundle),
            SingleEdit::RewireInput { module, port, wire } => {
                put_port(out, "input ", module, *port, wire.get().as_str())
            }
            SingleEdit::RewireOutput { module, port, wire } => {
                put_port(out, "output ", module, *port, word_of(wire))
            }
            SingleEdit::SetInputDelay {
                module,
                port,
                delay,
            } => put_port(out, "indelay ", module, *port, *delay),
            SingleEdit::SetDelay {
                module,
                port,
                delay,
            } => put_port(out, "delay ", module, *port, *delay),
            SingleEdit::SetStimulus { wire, changes } => put_stimulus(
                out,
                wire,
                changes.as_slice(),
            ),
            SingleEdit::ClearStimulus { wire } => put_named(out, "clear ", wire),
        }
    }
}

/// Writes the edit that adds a wire.
fn put_wire<S: Sink>(out: &mut Out<S>, name: &Name, width: u64, level: u64) -> Result<(), Failed>
    ensures { Writes result out.old out.new (single_text (AddWire name.now width level)) }
{
    ("wire ", (name.as_str(), " ", width), (" ", level)).put_to(out)
}

/// Writes the edit that adds a bundle.
fn put_bundle<S: Sink>(out: &mut Out<S>, new: &NewBundle) -> Result<(), Failed>
    ensures { Writes result out.old out.new (single_text (AddBundle new.now)) }
{
    let name = ("bundle ", new.name.as_str());
    let request = (" ", new.request.as_str());
    let acknowledge = (" ", new.acknowledge.as_str());
    let rest = (" ", new.payload.as_str(), (" ", new.setup));
    (name, (request, (acknowledge, rest))).put_to(out)
}

/// Writes the start of an edit and the name that ends it.
fn put_named<S: Sink>(out: &mut Out<S>, start: &str, name: &Name) -> Result<(), Failed>
    ensures { Writes result out.old out.new (start.now ++ name.now) }
{
    (start, name.as_str()).put_to(out)
}

/// Writes the start of an edit of a port, the module's name, the port's number, and what the port gets.
fn put_port<S: Sink, T: Text + Copy>(
    out: &mut Out<S>,
    start: &str,
    part: &Name,
    port: u64,
    new: T,
) -> Result<(), Failed>
    ensures { Writes result out.old out.new (start.now ++ (part.now ++ (32 ∷ (decimal port ++ (32 ∷ T.text new))))) }
{
    (start, (part.as_str(), " ", port), (" ", new)).put_to(out)
}

/// Writes the edit that adds a module.
fn put_module<S: Sink>(out: &mut Out<S>, new: &NewModule) -> Result<(), Failed>
    ensures { Writes result out.old out.new (module_text new.now) }
{
    let params = Spaced {
        items: new.params.as_slice(),
    };
    let inputs = NewInputs {
        inputs: new.inputs.as_slice(),
    };
    let outputs = NewOutputs {
        outputs: new.outputs.as_slice(),
    };
    let start = ("module ", new.name.as_str(), " ", new.kind.word());
    (start, (params, " :", inputs), (" >", outputs)).put_to(out)
}

/// Writes the edit that sets a stimulus.
fn put_stimulus<S: Sink>(out: &mut Out<S>, wire: &Name, pairs: &[(u64, u64)]) -> Result<(), Failed>
    ensures { Writes result out.old out.new (stimulus_text wire.now pairs.now) }
{
    ("stim ", wire.as_str(), Pairs { pairs }).put_to(out)
}

/// The name of a wire, `-` if there is none.
fn word_of(wire: &Option<Boxed<Name>>) -> &str
    ensures { result.now ≡ wire_word wire.now }
{
    match wire {
        Some(name) => name.get().as_str(),
        None => "-",
    }
}
