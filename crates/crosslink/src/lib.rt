//! Crosslinks: bonds that form in a run between monomers two lattice units apart along an axis.
//! It stands on `bfm_world` for the engine. It promises that a link is made exactly where the rule of
//! links adds a pair, whatever engine holds the world, and that a log holds the pairs that were put
//! into it since it was cleared, in order. Only `BondLog::new` takes memory.
#![tactic(auto)]

mod linking;
mod log;
#[cfg(test)]
mod tests;

pub use linking::link;
pub use log::BondLog;
