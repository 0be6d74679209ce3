//! The law of a run: what holds of every sequence of calls, whatever they are and however answered, over any subject
//! (a base image, a recovery, and what each recording means).
#![tactic(auto)]

ghost use Rattle.law.specs.Law.{EveryCallIsAnswered, EveryHistoryIsLawful, FirstIsFirst, SomeRunIsSafe, TheLawDecides};

/// Whatever calls are made of a run, its history keeps the law; and where nothing is forgone, the state that it names is
/// the first of the list that is unsafe.
#[tactic(auto, using(crate::proofs::Lawful::lawful, crate::proofs::Naming::first_is_first))]
pub fn law_stands()
    ensures lawful { EveryHistoryIsLawful }
    ensures named { FirstIsFirst }
{}

/// No two answers to a call both keep the law, unless memory is wanting; every call has an answer; and some run is safe.
pub fn law_decides()
    ensures one { TheLawDecides }
    ensures some { EveryCallIsAnswered }
    ensures safe { SomeRunIsSafe }
{}
