//! The crossing check of a set of bond vectors: whether a local move that the set allows can take
//! a bond through another bond.
//! It stands on `bond_set` for the set and on `bfm_geom` for triangle against segment. It promises
//! that the verdict is `Free` exactly where no such move exists, wherever the other bond may begin,
//! and else names the first one, with weights that show the common point.
#![tactic(auto)]

mod judgement;
mod passage;
mod search;
#[cfg(test)]
mod tests;

pub use judgement::{SetVerdict, verdict};
