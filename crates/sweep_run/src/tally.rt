/// How many moves were made, and how many pairs were linked.
#[derive(Clone, Copy, Debug, PartialEq, Eq)]
pub struct Tally {
    pub accepted: u64,
    pub links: u64,
}
