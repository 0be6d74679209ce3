//! The calls of a script.

/// A call as a line of a script says it: `load` does not name its recording.
#[derive(Clone, Copy, PartialEq, Eq, Debug)]
pub enum Spoken {
    /// Load the recording.
    Load,
    /// Go to the next state.
    Advance,
    /// Recover and judge the standing state.
    Judge,
    /// Leave the rest of the standing point.
    Forgo,
    /// Show a sector of the standing state in a buffer of so many bytes.
    Look { sector: usize, size: usize },
    /// Report.
    Report,
}
