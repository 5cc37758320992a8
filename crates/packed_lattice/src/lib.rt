//! The sites of a box, each free or taken, and the owner of each place: what makes it cheap to ask
//! whether a monomer may stand somewhere or step (Carmesin and Kremer 1988).
//! It stands on `bfm_base` and `bfm_geom`. It promises that each call answers and changes exactly
//! the sites and places of its entry, that all others stay, that a face costs at most four looks
//! at sites, and that only the two `new` take memory.
#![tactic(auto)]

mod lattice;
mod owners;
mod site;

pub use lattice::Lattice;
pub use owners::Owners;
