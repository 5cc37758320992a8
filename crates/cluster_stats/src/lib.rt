//! The contacts of a world, by the classes of the monomers, and its clusters, by their sizes.
//! It stands on `bfm_world`, on the owners of `packed_lattice` and on the definitions of
//! `chain_stats`. It promises that each pair of monomers in contact is counted once, and that clusters
//! are the sets of monomers that contacts join, for every world, in time that grows with the number of
//! monomers and with the box, never with pairs. Only `contacts` and `clusters` take memory, and they tell want of it.
#![tactic(auto)]

mod cluster_sizes;
mod contact_counts;
mod places;
mod search;
mod shell;
#[cfg(test)]
mod tests;

pub use cluster_sizes::{ClusterSizes, clusters};
pub use contact_counts::{ContactCounts, contacts};
