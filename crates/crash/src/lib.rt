//! What a crash may leave: the crash states of a recording and the trees admitted at a point, as
//! definitions in specs/, and what is proved of them.
#![tactic(auto)]

ghost use Rattle.crash.specs.Laws.{DurableLaws, NumbersAreTheRules, CandidatesAreTheRules, StatesArePermitted, RanksAreLexicographic, ListIsTheStates, HistoryGivesTheCandidates};
ghost use Rattle.crash.specs.NodeLaws.{NodesAreTheRules};
ghost use Rattle.crash.specs.EffectLaws.{EffectsAreTheEntries};
ghost use Rattle.crash.specs.WordLaws.{WordsAreTheirs};
ghost use Rattle.crash.specs.Examples.{Examples};
ghost use Rattle.crash.specs.NodeExamples.{NodeExamples};

/// What the words on lists say, place by place.
pub fn words_are_theirs()
    ensures { WordsAreTheirs }
{}

/// What every other fact here uses of when a write is durable.
pub fn durable_laws()
    ensures { DurableLaws }
{}

/// The effects of entries write what the entries write, and carry their flush and FUA.
#[tactic(auto, using(crate::proofs::Effecting::same_sectors, crate::proofs::Effecting::same_contents, crate::proofs::Effecting::same_flush, crate::proofs::Effecting::same_fua))]
pub fn effects_are_the_entries()
    ensures { EffectsAreTheEntries }
{}

/// The numbers of a sector are those that are not struck out, in order, and never none.
pub fn numbers_are_the_rules()
    ensures { NumbersAreTheRules }
{}

/// The candidates of a sector are those of the rules, no content twice, in order.
pub fn candidates_are_the_rules()
    ensures { CandidatesAreTheRules }
{}

/// The states of a point are the permitted images, none twice, and how many they are.
pub fn states_are_the_permitted()
    ensures { StatesArePermitted }
{}

/// The state of each rank, and that the ranks climb in lexicographic order.
pub fn ranks_are_lexicographic()
    ensures { RanksAreLexicographic }
{}

/// The list has every state of every point, in order.
pub fn list_is_the_states()
    ensures { ListIsTheStates }
{}

/// A sector's history holds its candidates, before and after equal ones are left out.
pub fn history_gives_the_candidates()
    ensures { HistoryGivesTheCandidates }
{}

/// A node's history holds its candidates.
pub fn nodes_are_the_rules()
    ensures { NodesAreTheRules }
{}

/// Small recordings.
#[tactic(auto, unfolding(crate::specs::States::is_durable, crate::specs::States::numbers, crate::specs::States::candidates, crate::specs::States::columns, crate::specs::States::states, crate::specs::States::points, crate::specs::States::list, tree::specs::Prints::print_of))]
pub fn examples_stand()
    ensures { Examples }
{}

/// Small rows of marks.
pub fn node_examples_stand()
    ensures { NodeExamples }
{}
