//! Tests alone: sweeps by the plain engine beside the same sweeps by the packed one.
//! They stand on both engines, on `sweep_run` for the sweeps and on `melt_builder` for melts, and no
//! crate stands on them. They show on worlds with contacts, chains and links what is proved of both
//! engines for all worlds: that they come to one world, one tally and one log.
#![tactic(auto)]

#[cfg(test)]
mod tests;
