//! The steps in which the expressions of roots are made.

/// How the expression of a place is made: of its own node's leaf, or of the expressions at places before it.
#[derive(Clone, Copy, Drop)]
pub(crate) enum Step {
    Leaf,
    /// A column of the main trace, on this row or on the next.
    Current(usize),
    Next(usize),
    Add(usize, usize),
    Sub(usize, usize),
    Neg(usize),
    Mul(usize, usize),
    /// A product whose first operand is a selector.
    Gate(usize, usize),
}
