//! Reads files: the commands of the header, the set of bond vectors, the list of bonds, labels and
//! valences, fixed monomers, the weights of contacts and the thresholds of acceptance, and frames.
//! It stands on `bfm_lexer` for lines and numbers, on `bond_set`, on `contact_table` and on `bfm_world`,
//! whose builder judges positions and bonds.
//! It promises that a `Reader` gives the verdict on the bytes that it was fed, however they were cut:
//! what an accepted file holds, or its first wrong line and the least cause; any file may be answered
//! by want of memory.
#![tactic(auto)]

mod commands;
mod fault;
mod fixed;
mod forms;
#[cfg(test)]
mod forms_tests;
mod frame;
mod frames;
mod header;
mod loaded;
mod owner;
mod pairs;
mod progress;
mod ranges;
mod reader;
mod role;
mod settings;
mod strokes;
mod summary;
#[cfg(test)]
mod tests;

pub use commands::{CommandLine, Known, command_of};
pub use forms::{
    Range, contact_entry, frame_line, monomers_entry, pair_entry, range_entry, threshold_entry,
    value_of, vector_entry,
};
pub use loaded::{Loaded, Places};
pub use reader::Reader;
