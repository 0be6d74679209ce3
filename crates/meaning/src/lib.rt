//! What load makes of a recording's bytes over a base and a file system: a refusal, or the recording's meaning.
#![tactic(auto)]

ghost use Rattle.meaning.specs.Subjects.{MeaningIsTheRules, SomeRecordingIsSafe};

/// What load takes means what the rules of crash states and of marks say.
pub fn meaning_is_the_rules()
    ensures { MeaningIsTheRules }
{}

/// And some recording's every state is judged, and reported safe.
#[tactic(auto, using(crate::proofs::Safe::safe_recording))]
pub fn some_recording_is_safe()
    ensures { SomeRecordingIsSafe }
{}
