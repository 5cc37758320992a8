//! Valid worlds of polymers: built monomer by monomer and bond by bond, changed by legal local
//! moves alone, and moved by whatever keeps the contract of an engine.
//! It stands on `bfm_geom`, `bond_set`, `contact_table`, `packed_lattice` and `arrayvec`. It promises that every `World` is valid in
//! every state (no monomer beyond a wall, no two overlapping, each bond with a vector of the set),
//! that a builder refuses exactly what would break that, and, by the trait `Engine`, that an attempt
//! makes its move exactly where it is legal and its word is below the threshold of what it does to the contacts.
#![tactic(auto)]

mod bonds;
mod build_fault;
mod builder;
mod chains;
mod engine;
mod overlaps;
mod parts;
mod room;
#[cfg(test)]
mod tests;
mod world;

pub use bonds::Bonds;
pub use build_fault::BuildFault;
pub use builder::WorldBuilder;
pub use chains::join_chains;
pub use engine::Engine;
pub use overlaps::are_apart;
pub use room::{is_clear, is_within_walls, keeps_bonds, may_bond};
pub use world::World;
