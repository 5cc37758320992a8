/// What a run is asked for.
#[derive(Clone, Copy, Debug, PartialEq, Eq)]
pub struct RunOrder {
    /// The seed of the random words.
    pub seed: u64,
    /// How many frames are written, 0 to 2^20.
    pub frames: u64,
    /// How many sweeps lie between two frames, 1 to 2^30.
    pub every: u64,
    /// Whether a link is tried after each attempt.
    pub linking: bool,
    /// How many bytes of input are read at most, 0 to 2^30.
    pub limit: u64,
}
