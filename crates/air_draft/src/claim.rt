//! The claims of a draft.
ghost use Rattle.std.specs.Prelude.{◌≡◌};
ghost use Rattle.air_draft.specs.ExtDraftTerms.{first_operand};

/// What is claimed of expressions over an extension, which are named by the numbers of their steps there.
#[derive(Clone, Copy, Debug, PartialEq, Eq)]
pub enum ExtClaimed {
    Zero(usize),
    One(usize),
    Equal(usize, usize),
}

/// What is claimed of expressions, which are named by the numbers of their steps.
#[derive(Clone, Copy, Debug, PartialEq, Eq)]
pub enum Claimed {
    Zero(usize),
    One(usize),
    Bool(usize),
    Equal(usize, usize),
    /// What is claimed of expressions over the extension, which only an [`ExtDraft`](crate::ExtDraft) has.
    Extension(ExtClaimed),
}

/// A factor of a condition: a claim under it holds only where the factor isn't zero. Expressions are named by the numbers
/// of their steps.
#[derive(Clone, Copy, Debug, PartialEq, Eq)]
pub enum Factor {
    /// The selector of the first row.
    FirstRow,
    /// The selector of the last row.
    LastRow,
    /// The selector of all rows but the last.
    Transition,
    /// An expression.
    Nonzero(usize),
    /// The difference x - y.
    Different(usize, usize),
}

/// A claim: what is claimed, where and under which label.
#[derive(Clone, Copy, Debug, PartialEq, Eq)]
pub struct Claim {
    pub claimed: Claimed,
    /// The number of the conditions under which it is claimed; none of it holds everywhere.
    pub condition: Option<usize>,
    /// The number of its label, if it has one.
    pub label: Option<usize>,
}

impl ExtClaimed {
    /// The number of the first expression that it names.
    pub fn first_operand(self) -> usize
        ensures { result ≡ first_operand self }
    {
        match self {
            ExtClaimed::Zero(x) => x,
            ExtClaimed::One(x) => x,
            ExtClaimed::Equal(x, _) => x,
        }
    }
}
