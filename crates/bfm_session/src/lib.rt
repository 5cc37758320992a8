//! A session with one file: reading it from a source, and running or analysing what it holds into a
//! sink. It stands on `bfm_commands` for the reading, on `bfm_writer` for the writing, on `sweep_run`
//! for the sweeps, on `packed_engine` for the moves, on `crosslink` for the log of links, on
//! `crossing_check` for the verdict on the set, and on `chain_stats` and `cluster_stats` for molecules,
//! contacts and clusters. It promises that `load` judges the bytes in order and
//! stops where they decide, that `run` writes the kept part of the file and then the groups of the
//! run, each with the pairs that were linked since the one before, and that `analyse` writes its
//! answer; both flush, or say why not. A world that `write_world` writes is read back as the same
//! world, and what `run` writes as the world that the run came to.
#![tactic(auto)]

mod analysis;
mod crossing;
mod info;
mod lines;
mod loading;
mod order;
mod running;
mod tables;
mod trials;
mod written;

pub use analysis::{Ask, AskFault, analyse};
pub use crossing::crossing_lines;
pub use lines::number_lines;
pub use loading::{LoadFault, load};
pub use order::RunOrder;
pub use running::{RunDone, RunFault, run};
pub use trials::trial;
pub use written::write_world;
