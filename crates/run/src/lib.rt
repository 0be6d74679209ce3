//! A run over the crash states of a recording: it gives each state, recovers and judges it, and reports. Every call is
//! matched with the run's condition in one place, and whatever calls are made, the run's history keeps the law.
#![tactic(auto)]

mod call;
mod calls;
mod moving;
mod refusal;
mod run;
mod space;
mod taking_up;
mod turn;

pub use call::{Answer, Call};
pub use refusal::Refusal;
pub use run::Run;
