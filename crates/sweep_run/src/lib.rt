//! Sweeps of a run: in each as many attempts as there are monomers, each with its own three random
//! words, and where linking is on a try at a link after each of them, over any engine.
//! It stands on `bfm_world` for the engine, on `sweep_stream` for the words and on `crosslink` for
//! links and their log. It promises that the world after a sweep, its tally and its log are those of
//! the rules, attempt by attempt, whatever engine made it, and that each state in between is valid.
//! It takes no memory.
#![tactic(auto)]

mod attempts;
mod choice;
mod tally;

pub use attempts::{sweep, sweeps};
pub use tally::Tally;
