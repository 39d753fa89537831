//! The meaning of netlists, and a plain evaluator that computes it unit by unit. `response` has what one module does over a span of time.
#![tactic(auto)]

mod cell;
mod evaluation;
pub mod examples;
mod finding;
mod inputs;
pub mod laws;
pub mod response;
mod shared_wave;
mod track;
mod wave_list;
mod waves;

pub use evaluation::{built, plain_waves};
pub use finding::{Finding, Place};
pub use response::{Changes, Findings, InPiece, Outputs, Piece, cut, cut_delayed, respond};
pub use waves::Waves;
