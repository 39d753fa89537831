//! When wires change and modules wait: events, gaps and margins over a range of times, and who waits for whom at a time.

mod apart;
mod busy;
mod client_watch;
mod delayed_input;
mod events;
mod extremes;
mod figures;
mod input_ports;
pub mod laws;
mod lines;
mod margins;
mod marks;
mod measure;
mod missing;
mod range;
mod trail;
mod wait_moment;
mod waits;
mod wire_measures;

pub use client_watch::{ClientWatch, follow};
pub use delayed_input::DelayedInput;
pub use extremes::Extremes;
pub use input_ports::InputPorts;
pub use marks::Marks;
pub use measure::put_measure;
pub use range::TimeRange;
pub(crate) use range::read_time;
pub use wait_moment::WaitMoment;
pub use waits::put_waits;
pub use wire_measures::put_wire_measures;
