//! Melts: dense starts of linear chains of one length, along a way that leads to and fro through
//! all cells of a box.
//! It stands on `bfm_world`, whose builder takes the monomers and the bonds one by one. It promises
//! that a melt is exactly the world of its definition, which is valid, that each bond leads one
//! cell further along an axis, and that a melt is refused exactly where it needs more cells than
//! there are.
#![tactic(auto)]

mod cells;
mod melts;
#[cfg(test)]
mod tests;

pub use melts::melt;
