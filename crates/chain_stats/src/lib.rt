//! The molecules of a world, how large they are and how far they went: radius of gyration, distance
//! from end to end, drift of the centre of mass, mean-square displacement.
//! It stands on `bfm_world`. It promises that molecules are the sets of monomers that bonds join, and
//! that each figure is the textbook's, as an exact fraction of whole numbers that is not reduced, for
//! every world and any choice of monomers. Only `molecules` takes memory, and it tells want of it.
#![tactic(auto)]

mod fraction;
mod groups;
mod molecule_list;
#[cfg(test)]
mod molecule_tests;
mod search;
#[cfg(test)]
mod tests;
mod vectors;

pub use fraction::{Fraction, drift, end_square, mean_square, radius};
pub use molecule_list::{MoleculeList, molecules};
