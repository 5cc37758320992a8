//! Sets of bond vectors of the bond fluctuation model: which differences of two places a bond may
//! have, and the byte that stands for each of them in a file.
//! It stands on `bfm_base`, on `indexmap` for the order of adding, and on `bfm_geom`, in whose words
//! it says which moves of a set let bonds cross. It promises that a set refuses exactly what breaks
//! a rule and is then as it was, finds exactly what is in it, and that the usual set is the known one.
#![tactic(auto)]

mod set;
#[cfg(test)]
mod tests;
mod usual;

pub use set::{BondSet, SetFault};
