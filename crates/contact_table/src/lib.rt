//! Weights of contacts between classes of monomers, and the thresholds by which a change of their
//! sum is accepted: what makes monomers attract or repel each other, after Metropolis and others (1953).
//! It stands on `bfm_base` and on `arrayvec` for the thresholds. It promises that a table keeps the
//! limits of both in its type, that it finds exactly what it was told last, for a pair of classes in
//! either order, that all else stays as it was, and that no call takes memory.
#![tactic(auto)]

mod table;
#[cfg(test)]
mod tests;

pub use table::{MOST_THRESHOLDS, Table};
