//! The geometry of the box and of bond vectors, in whole numbers: wrapped differences, the overlap
//! and the contact of two monomers, and the triangle that a bond sweeps against a segment.
//! It stands on `bfm_base`. It promises that `wrap` gives the one wrapped form of a difference, that
//! `overlap` tells exactly whether two monomers share a site and `contact` whether they are in contact, and that `meets` answers None exactly
//! where triangle and segment have no common point, and else weights that show one.
#![tactic(auto)]

mod difference;
mod meeting;
mod stretch;
#[cfg(test)]
mod tests;
mod upright;

pub use difference::{contact, overlap, plain_difference, shifted, wrap};
pub use meeting::{Weights, meets};
