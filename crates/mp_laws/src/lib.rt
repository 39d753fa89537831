//! Laws of what the other crates define: of edits, of texts, of findings, of modules, of inputs, of windows, of stimuli, of late data, of
//! dead ports and deadlocks, of runs that are over, and of periods. No program calls them.
#![tactic(auto)]

pub mod deadlocks;
pub mod edits;
pub mod examples;
pub mod findings;
pub mod inputs;
pub mod late;
pub mod modules;
pub mod over_runs;
pub mod periods;
pub mod stimuli;
pub mod texts;
pub mod windows;
