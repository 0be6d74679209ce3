//! The first state of a recording.
ghost use Rattle.std.specs.Prelude.{◌≡◌, IfOk};
ghost use Rattle.law.specs.Subject.{Subject};
ghost use Rattle.law.specs.History.{begun as nothingCalled};
ghost use Rattle.progress.specs.Reports.{report_seen};
ghost use Rattle.run.specs.Seen.{Kept, Led};
ghost use Rattle.judging.specs.Codes.{code_of};
ghost use Rattle.foreign.specs.FirstStates.{FirstState};

use filesystem::FileSystem;
use image::{ImageStore, SECTOR};
use judging::Judgement;
use progress::Report;
use run::{Refusal, Run};

/// What is found of a first state: the judgement, one of its sectors, and the report then.
#[derive(Drop)]
pub struct First {
    pub judgement: Judgement,
    pub content: [u8; SECTOR],
    pub report: Report,
}

/// Loads a recording into a run that has just begun, goes to the first state of its list, judges it,
/// looks at one of its sectors, and reports.
pub fn judge_first<S: ImageStore, F: FileSystem>(
    run: &mut Run<S, F>,
    recording: &[u8],
    sector: usize,
) -> Result<First, Refusal>
    ensures kept { Kept run.old run.new }
    ensures found { (s : Subject) → Led s nothingCalled run.old → IfOk result (λ first. FirstState s recording.now sector (code_of first.judgement) first.content (report_seen first.report)) }
{
    let mut content = [0u8; SECTOR];
    run.load(recording)?;
    run.advance()?;
    let judgement = run.judge()?;
    run.look(sector, &mut content)?;
    Ok(First {
        judgement,
        content,
        report: run.report(),
    })
}
