//! Whether two edits are the same.
ghost use Rattle.std.specs.Prelude.{◌≡◌, IsTrue, ◌↔◌};
ghost use Rattle.mp_records.specs.declared.single_edit.SingleEdit.TheVariants.{AddWire, RemoveWire, AddModule, RemoveModule, AddBundle, RemoveBundle, RewireInput, RewireOutput, SetInputDelay, SetDelay, SetStimulus, ClearStimulus};

use crate::boxed::Boxed;
use crate::changes::Changes;
use crate::edit::Edit;
use crate::name::Name;
use crate::new_bundle::NewBundle;
use crate::new_module::NewModule;
use crate::port_names::{InputName, OutputName};
use crate::same::{Same, same_list, same_option};
use crate::single_edit::SingleEdit;

impl Same for Boxed<Name> {
    fn same(&self, other: &Self) -> bool {
        self.get().same(other.get())
    }
}

impl Same for InputName {
    fn same(&self, other: &Self) -> bool {
        self.wire.same(&other.wire) && self.delay == other.delay
    }
}

impl Same for OutputName {
    fn same(&self, other: &Self) -> bool {
        same_option(&self.wire, &other.wire) && self.delay == other.delay
    }
}

impl Same for (u64, u64) {
    fn same(&self, other: &Self) -> bool {
        self.0 == other.0 && self.1 == other.1
    }
}

impl Same for NewModule {
    fn same(&self, other: &Self) -> bool {
        self.name.same(&other.name)
            && self.kind == other.kind
            && self.params.as_slice() == other.params.as_slice()
            && same_list(self.inputs.as_slice(), other.inputs.as_slice())
            && same_list(self.outputs.as_slice(), other.outputs.as_slice())
    }
}

impl Same for NewBundle {
    fn same(&self, other: &Self) -> bool {
        self.name.same(&other.name)
            && self.request.same(&other.request)
            && self.acknowledge.same(&other.acknowledge)
            && self.payload.same(&other.payload)
            && self.setup == other.setup
    }
}

impl Same for Edit {
    fn same(&self, other: &Self) -> bool {
        match self {
            Edit::Single(one) => match other {
                Edit::Single(another) => one.same(another),
                Edit::Batch(_) => false,
            },
            Edit::Batch(one) => match other {
                Edit::Single(_) => false,
                Edit::Batch(another) => same_list(one.as_slice(), another.as_slice()),
            },
        }
    }
}

impl Same for SingleEdit {
    fn same(&self, other: &Self) -> bool {
        match self {
            SingleEdit::AddWire { name, width, level } => adds_wire(other, name, *width, *level),
            SingleEdit::RemoveWire { wire } => removes_wire(other, wire),
            SingleEdit::AddModule(new) => adds_module(other, new.get()),
            SingleEdit::RemoveModule { module } => removes_module(other, module),
            SingleEdit::AddBundle(new) => adds_bundle(other, new.get()),
            SingleEdit::RemoveBundle { bundle } => removes_bundle(other, bundle),
            SingleEdit::RewireInput { module, port, wire } => rewires_input(
                other,
                module,
                *port,
                wire.get(),
            ),
            SingleEdit::RewireOutput { module, port, wire } => rewires_output(
                other, module, *port, wire,
            ),
            SingleEdit::SetInputDelay {
                module,
                port,
                delay,
            } => sets_input_delay(other, module, *port, *delay),
            SingleEdit::SetDelay {
                module,
                port,
                delay,
            } => sets_delay(other, module, *port, *delay),
            SingleEdit::SetStimulus { wire, changes } => sets_stimulus(other, wire, changes),
            SingleEdit::ClearStimulus { wire } => clears_stimulus(other, wire),
        }
    }
}

fn adds_wire(edit: &SingleEdit, named: &Name, bits: u64, initial: u64) -> bool
    ensures { IsTrue result ↔ (AddWire named.now bits initial ≡ edit.now) }
{
    match edit {
        SingleEdit::AddWire { name, width, level } => {
            named.same(name) && bits == *width && initial == *level
        }
        _ => false,
    }
}

fn removes_wire(edit: &SingleEdit, named: &Name) -> bool
    ensures { IsTrue result ↔ (RemoveWire named.now ≡ edit.now) }
{
    match edit {
        SingleEdit::RemoveWire { wire } => named.same(wire),
        _ => false,
    }
}

fn adds_module(edit: &SingleEdit, added: &NewModule) -> bool
    ensures { IsTrue result ↔ (AddModule added.now ≡ edit.now) }
{
    match edit {
        SingleEdit::AddModule(new) => added.same(new.get()),
        _ => false,
    }
}

fn removes_module(edit: &SingleEdit, named: &Name) -> bool
    ensures { IsTrue result ↔ (RemoveModule named.now ≡ edit.now) }
{
    match edit {
        SingleEdit::RemoveModule { module } => named.same(module),
        _ => false,
    }
}

fn adds_bundle(edit: &SingleEdit, added: &NewBundle) -> bool
    ensures { IsTrue result ↔ (AddBundle added.now ≡ edit.now) }
{
    match edit {
        SingleEdit::AddBundle(new) => added.same(new.get()),
        _ => false,
    }
}

fn removes_bundle(edit: &SingleEdit, named: &Name) -> bool
    ensures { IsTrue result ↔ (RemoveBundle named.now ≡ edit.now) }
{
    match edit {
        SingleEdit::RemoveBundle { bundle } => named.same(bundle),
        _ => false,
    }
}

fn rewires_input(edit: &SingleEdit, named: &Name, place: u64, read: &Name) -> bool
    ensures { IsTrue result ↔ (RewireInput named.now place read.now ≡ edit.now) }
{
    match edit {
        SingleEdit::RewireInput { module, port, wire } => {
            named.same(module) && place == *port && read.same(wire.get())
        }
        _ => false,
    }
}

fn rewires_output(edit: &SingleEdit, named: &Name, place: u64, driven: &Option<Boxed<Name>>) -> bool
    ensures { IsTrue result ↔ (RewireOutput named.now place driven.now ≡ edit.now) }
{
    match edit {
        SingleEdit::RewireOutput { module, port, wire } => {
            named.same(module) && place == *port && same_option(driven, wire)
        }
        _ => false,
    }
}

fn sets_input_delay(edit: &SingleEdit, named: &Name, place: u64, units: u64) -> bool
    ensures { IsTrue result ↔ (SetInputDelay named.now place units ≡ edit.now) }
{
    match edit {
        SingleEdit::SetInputDelay {
            module,
            port,
            delay,
        } => named.same(module) && place == *port && units == *delay,
        _ => false,
    }
}

fn sets_delay(edit: &SingleEdit, named: &Name, place: u64, units: u64) -> bool
    ensures { IsTrue result ↔ (SetDelay named.now place units ≡ edit.now) }
{
    match edit {
        SingleEdit::SetDelay {
            module,
            port,
            delay,
        } => named.same(module) && place == *port && units == *delay,
        _ => false,
    }
}

fn sets_stimulus(edit: &SingleEdit, named: &Name, pairs: &Changes) -> bool
    ensures { IsTrue result ↔ (SetStimulus named.now pairs.now ≡ edit.now) }
{
    match edit {
        SingleEdit::SetStimulus { wire, changes } => {
            named.same(wire) && same_list(pairs.as_slice(), changes.as_slice())
        }
        _ => false,
    }
}

fn clears_stimulus(edit: &SingleEdit, named: &Name) -> bool
    ensures { IsTrue result ↔ (ClearStimulus named.now ≡ edit.now) }
{
    match edit {
        SingleEdit::ClearStimulus { wire } => named.same(wire),
        _ => false,
    }
}
