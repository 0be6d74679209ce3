//! Whether a recovered tree is admitted at a crash point.
#![tactic(auto)]

mod fill;
mod judge;
mod judgement;
mod values;

pub use judge::judge_state;
pub use judgement::Judgement;
pub use values::Values;
