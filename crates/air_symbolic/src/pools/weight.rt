//! Weights of the leaves, which determine degrees.

/// The weight of each leaf in a degree.
#[derive(Clone, Copy, Debug)]
pub enum LeafWeight<'a> {
    /// The weights by which nodes state their degrees.
    Cached,
    /// The cached weights, but with this weight for the transition selector.
    Transition(usize),
    /// The degree of the leaf's polynomial over `trace_len` rows; `periods` holds the lengths of the periodic columns.
    Trace {
        trace_len: usize,
        periods: &'a [usize],
    },
}

/// The degrees of some expressions.
#[derive(Debug, Drop)]
pub struct Degrees {
    /// The degree of each root, in order.
    pub values: Vec<usize>,
    /// The number of turns taken: a turn computes one node's degree.
    pub turns: u128,
}

/// The degrees of a pool's first numbers.
#[derive(Drop)]
pub struct DegreeTable {
    /// The degree of each number, or 2^128 - 1 if it is greater than that.
    pub degrees: Vec<u128>,
    /// The number of turns taken.
    pub turns: u128,
}
