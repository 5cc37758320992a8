//! Networks: nodes in a cubic lattice, each joined to its six neighbours by straight strands,
//! through the boundaries too.
//! It stands on `bfm_world`, whose builder takes the monomers and the bonds one by one. It promises
//! that a network is exactly the world of its definition, which is valid, and that each bond leads
//! two units along an axis.
#![tactic(auto)]

mod networks;
mod nodes;
mod strands;
#[cfg(test)]
mod tests;

pub use networks::network;
