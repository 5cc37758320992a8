//! Brushes: upright chains of one length that stand on a wall, their feet in rows.
//! It stands on `bfm_world`, whose builder takes the monomers and the bonds one by one. It promises
//! that a brush is exactly the world of its definition, which is valid, and that a brush is refused
//! exactly where its chains are longer than the box is high.
#![tactic(auto)]

mod brushes;
mod feet;
#[cfg(test)]
mod tests;

pub use brushes::brush;
pub use feet::feet_in;
