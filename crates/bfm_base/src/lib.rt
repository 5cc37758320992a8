//! The words that every crate of the simulator speaks: places and directions on the lattice, the
//! shape of a box, the causes for which a file is refused, and the outside world as a source of
//! bytes and a sink for them.
//! It stands on std alone. It promises that a fault of the outside is answered only where the
//! count of faults of the object handed in rose, that `send` writes all or a prefix, and that only
//! `flush` passes on what a sink took.
#![tactic(auto)]

mod cause;
pub mod limits;
mod memory;
mod place;
mod standard;
mod steps;
mod stream;
#[cfg(test)]
mod tests;

pub use cause::{Cause, ReadStop, Refused};
pub use memory::{MemSink, MemSource};
pub use place::{Dir, P3, Shape};
pub use standard::{StdSink, StdSource};
pub use steps::Steps;
pub use stream::{Failed, Sink, Source, send, send_pieces};
