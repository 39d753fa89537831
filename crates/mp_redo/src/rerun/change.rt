//! A change of a netlist, as it is compared.

pub(crate) use mp_active::Change;
