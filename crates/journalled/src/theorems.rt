//! The laws of transactions and of the recovery.
ghost use Rattle.journalled.specs.Examples.{Carries, MovesOn, Ignores, Keeps};
ghost use Rattle.journalled.specs.Transactions.{Tested, CarriedOut, Untouched, Unformatted, ReadAfter, HeadFault, SequenceFault, Settled};

/// Which transaction stands, what a recovery makes of the image and reads from it, which fault
/// comes first, and that a second recovery changes nothing.
#[tactic(auto, using(crate::proofs::Standing::tested, crate::proofs::Settling::settled, crate::proofs::Whole::carried_out, crate::proofs::Whole::untouched))]
pub fn laws()
    ensures tested { Tested }
    ensures carried { CarriedOut }
    ensures untouched { Untouched }
    ensures unformatted { Unformatted }
    ensures read { ReadAfter }
    ensures head { HeadFault }
    ensures sequence { SequenceFault }
    ensures settled { Settled }
{}

/// Worked examples of the layout.
#[tactic(auto, unfolding(tree::specs::Rules::allowed, image::specs::Fetched::blank, filesystem::specs::Least::first_failing, filesystem::specs::Words::word_at, filesystem::specs::Trees::node_at, filesystem::specs::Trees::nodes_of, filesystem::specs::Trees::node_stands, filesystem::specs::Trees::tree_of, crate::specs::Below::every, crate::specs::Journal::describes, crate::specs::Journal::commits, crate::specs::Journal::copied, crate::specs::Journal::put_word, crate::specs::Journal::recovered))]
pub fn examples()
    ensures carries { Carries }
    ensures moves { MovesOn }
    ensures ignores { Ignores }
    ensures keeps { Keeps }
{}
