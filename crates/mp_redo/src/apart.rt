//! Netlists in parts that no wire connects.

pub mod joining;
pub mod laws;
