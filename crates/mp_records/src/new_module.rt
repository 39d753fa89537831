//! A module that is to be added.
use crate::name::Name;
use crate::params::Params;
use crate::port_names::{InputNames, OutputNames};
use mp_modules::Kind;

/// A module that is to be added: its name, its kind with the parameters, and its ports with their wires by name.
#[derive(Drop)]
pub struct NewModule {
    pub name: Name,
    pub kind: Kind,
    pub params: Params,
    pub inputs: InputNames,
    pub outputs: OutputNames,
}
