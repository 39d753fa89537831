//! The edits of one thing.
use crate::boxed::Boxed;
use crate::changes::Changes;
use crate::name::Name;
use crate::new_bundle::NewBundle;
use crate::new_module::NewModule;

/// A change of one thing in a netlist. It names things by their present names. Its numbers may be out of range; then the edit is refused. A new
/// module or bundle is kept in a block of its own, and so is the second name of an edit with two names, so that each edit is small.
#[derive(Drop)]
pub enum SingleEdit {
    /// Adds a wire of a new name, with a width in bits and an initial level.
    AddWire {
        name: Name,
        width: u64,
        level: u64,
    },
    /// Removes a wire that no module and no bundle names, with its stimulus. Its name may be used again; its number isn't.
    RemoveWire {
        wire: Name,
    },
    /// Adds a module of a new name, whose wires exist.
    AddModule(Boxed<NewModule>),
    /// Removes a module. The wires that it drove have no driver then.
    RemoveModule {
        module: Name,
    },
    /// Adds a bundle of a new name, whose wires exist.
    AddBundle(Boxed<NewBundle>),
    /// Removes a bundle.
    RemoveBundle {
        bundle: Name,
    },
    /// Lets an input port read another wire, of the port's width. The port keeps its delay.
    RewireInput {
        module: Name,
        port: u64,
        wire: Boxed<Name>,
    },
    /// Lets an output port drive another wire of its width, or none. The port keeps its delay.
    RewireOutput {
        module: Name,
        port: u64,
        wire: Option<Boxed<Name>>,
    },
    /// Sets the transport delay of an input port, in units.
    SetInputDelay {
        module: Name,
        port: u64,
        delay: u64,
    },
    /// Sets the transport delay of an output port, in units.
    SetDelay {
        module: Name,
        port: u64,
        delay: u64,
    },
    /// Sets a wire from outside, in place of its earlier stimulus.
    SetStimulus {
        wire: Name,
        changes: Changes,
    },
    /// Removes the stimulus of a wire.
    ClearStimulus {
        wire: Name,
    },
}
