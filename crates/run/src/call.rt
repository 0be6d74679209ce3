//! The calls of a run, and what they answer.
use image::SECTOR;
use judging::Judgement;
use progress::Report;

/// A call of a run.
#[derive(Clone, Copy)]
pub enum Call<'a> {
    /// Load a recording.
    Load(&'a [u8]),
    /// Go to the next state.
    Advance,
    /// Recover and judge the standing state.
    Judge,
    /// Leave the rest of the standing point.
    Forgo,
    /// Show a sector of the standing state in a buffer of so many bytes.
    Look { sector: usize, size: usize },
    /// Report.
    Report,
}

/// What an accepted call answers.
#[derive(Clone, Copy)]
pub enum Answer {
    /// The recording is loaded.
    Loaded,
    /// The state of a point and a rank stands; none where no state is left.
    Next(Option<(usize, u64)>),
    /// What is found of the standing state.
    Found(Judgement),
    /// The rest of the point is forgone.
    Forgone,
    /// The sector asked for.
    Shown([u8; SECTOR]),
    /// The report.
    Reported(Report),
}
