//! Data that come late: changes of a bundle's data that no request leads to, though one came before.

mod bundles;
mod change_counts;
mod driven;
mod late;
mod search;

pub use bundles::{all_late, late_lists};
pub use driven::Driven;
pub use late::Late;
