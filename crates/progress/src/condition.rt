//! Where a run stands.

/// The condition of a run, by its last accepted call.
#[derive(Clone, Copy, PartialEq, Eq, Debug, Default)]
pub enum Condition {
    /// Nothing is loaded.
    #[default]
    Empty,
    /// A recording is loaded, and no state was given yet.
    Ready,
    /// A state stands and is not judged.
    Waiting,
    /// A state stands and is judged.
    Judged,
    /// The rest of the point was forgone.
    Left,
    /// No state is left.
    Ended,
}

/// How far a run is. The standing state is the one of `rank` at `point`, which has so many states;
/// the last point is `last`; `unsafe_judged` of the judged states were unsafe, and `first` is the
/// point and the rank of the first of them.
#[derive(Clone, Copy, Debug, Default)]
pub struct Progress {
    pub condition: Condition,
    pub last: usize,
    pub point: usize,
    pub rank: u64,
    pub states: u64,
    pub judged: u64,
    pub unsafe_judged: u64,
    pub forgone: u64,
    pub passed: u64,
    pub first: Option<(usize, u64)>,
}
