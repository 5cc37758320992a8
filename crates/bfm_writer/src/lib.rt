//! Writes the header of a file, and what a run adds to it: frames of polymers in lines of bond
//! identifiers, and before each the bonds that were added since the last one.
//! It stands on `bfm_world` for the monomers and their bonds, on `bond_set` for the identifiers, on
//! `contact_table` for the weights of contacts and on `bfm_base` for the sink. It promises that
//! `header` and `group` write exactly the text of the world, that they fail only where the sink
//! failed, after a prefix of that text, and that nothing takes memory.
#![tactic(auto)]

mod batch;
mod contacts;
mod frames;
mod groups;
mod headers;
mod listing;
#[cfg(test)]
mod tests;

pub use groups::group;
pub use headers::header;
