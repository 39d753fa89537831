//! A desk that is served: designers and viewers come to its seats and go.

mod designer_guest;
mod door;
mod ended;
mod hall;
mod host_fault;
mod hosted;
mod hosting;
pub mod laws;
mod own_seat;
mod people;
mod rises;
mod seat_place;
mod seat_server;
mod served;
mod serves;
mod service;
mod staff;
mod telling;
mod viewer_guest;

pub use door::{Door, Exit};
pub use ended::Ended;
pub use hall::Hall;
pub use host_fault::HostFault;
pub use hosted::Hosted;
pub use hosting::host;
pub use seat_place::{Places, SeatName, SeatPlace};
