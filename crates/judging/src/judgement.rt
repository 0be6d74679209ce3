//! What is found of a crash state.
ghost use Rattle.std.specs.Prelude.{◌≡◌, Some};
ghost use Rattle.judging.specs.Codes.{code_of, words_of};

use std::fmt;

/// What is found of a crash state.
#[derive(Clone, Copy, PartialEq, Eq, Debug)]
pub enum Judgement {
    /// A tree that is admitted at the crash point.
    Admitted,
    /// A tree that is not: the lowest node with a value that it may not have.
    Unadmitted { node: u8 },
    /// No tree: recovery found a fault.
    Faulty,
}

impl Judgement {
    /// The number of the outcome, and the node.
    pub fn code(&self) -> (u32, u32)
        ensures { result ≡ code_of self.now }
    {
        // The rules number the outcomes; nothing is generic over what has a number, so no trait says `code`.
        match self {
            Judgement::Admitted => (0, 0),
            Judgement::Unadmitted { node } => (1, u32::from(*node)),
            Judgement::Faulty => (2, 0),
        }
    }
}

// By hand: a derived text would come with `Error`, and a judgement is no error.
impl fmt::Display for Judgement {
    ghost output = { λ j. Some (words_of j) };

    fn fmt<W: fmt::Write>(&self, f: &mut fmt::Formatter<W>) -> fmt::Result {
        match self {
            Judgement::Admitted => write!(f, "the tree is admitted"),
            Judgement::Unadmitted { node } => {
                write!(f, "node {node} has a value that is not admitted")
            }
            Judgement::Faulty => write!(f, "recovery finds a fault"),
        }
    }
}
