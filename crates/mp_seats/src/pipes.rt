//! The seats of a desk at named pipes.

mod pipe_door;
mod pipe_exit;
mod pipe_paths;
mod pipes;

pub use pipes::Pipes;
