//! The ports of a module that is to be added.
ghost use Rattle.std.specs.Prelude.{◌≡◌, ◌∷◌};
ghost use Rattle.std.specs.List.{flat_map};
ghost use Rattle.mp_streams.specs.Outgoing.{Writes};
ghost use Rattle.mp_text.specs.edit_lines.EditLines.{input_text, output_text, wire_word};

use mp_records::{InputName, Name, OutputName};
use mp_streams::{Failed, Out, Sink, Text};

/// Inputs of a new module, each after a space.
#[derive(Clone, Copy)]
pub(crate) struct NewInputs<'a> {
    pub inputs: &'a [InputName],
}

impl<'a> Text for NewInputs<'a> {
    ghost text = { λ ports. flat_map (λ input. 32 ∷ input_text input) ports.inputs.now };

    fn put_to<S: Sink>(&self, out: &mut Out<S>) -> Result<(), Failed> {
        for input in self.inputs {
            put_input(out, input)?;
        }
        Ok(())
    }
}

/// Writes a space and the input.
fn put_input<S: Sink>(out: &mut Out<S>, input: &InputName) -> Result<(), Failed>
    ensures { Writes result out.old out.new (32 ∷ input_text input.now) }
{
    let name = input.wire.as_str();
    if input.delay == 0 {
        return (" ", name).put_to(out);
    }
    (" ", name, "/", input.delay).put_to(out)
}

/// Outputs of a new module, each after a space.
#[derive(Clone, Copy)]
pub(crate) struct NewOutputs<'a> {
    pub outputs: &'a [OutputName],
}

impl<'a> Text for NewOutputs<'a> {
    ghost text = { λ ports. flat_map (λ output. 32 ∷ output_text output) ports.outputs.now };

    fn put_to<S: Sink>(&self, out: &mut Out<S>) -> Result<(), Failed> {
        for output in self.outputs {
            let name = word_of(&output.wire);
            (" ", name, "/", output.delay).put_to(out)?;
        }
        Ok(())
    }
}

/// The name of a wire, `-` if there is none.
fn word_of(wire: &Option<Name>) -> &str
    ensures { result.now ≡ wire_word wire.now }
{
    match wire {
        Some(name) => name.as_str(),
        None => "-",
    }
}
