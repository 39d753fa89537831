//! What an old run and a new one have in common between two units, if some modules are evaluated again and the others sleep.

pub mod laws;
