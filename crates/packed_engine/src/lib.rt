//! The packed engine: attempts at local moves that look only at the sites and places beside a monomer,
//! in time that does not grow with the number of monomers.
//! It stands on `bfm_world`, whose trait `Engine` it keeps, and on the sites and owners of
//! `packed_lattice`. It promises what `plain_move` promises of an attempt, and that an attempt looks at
//! no more than 112 sites and places: 4 sites for the step, and 108 places for contacts. It takes all
//! its memory when it is made; want of it hands the world back.
#![tactic(auto)]

mod allowed;
mod engine;
mod places;
mod renewal;
mod spots;
mod steps;
#[cfg(test)]
mod tests;
mod weights;

pub use engine::PackedEngine;
