//! Steps: how expressions are made.

use air_core::BaseEntry;

/// An operand of a step.
#[derive(Clone, Copy, Debug, PartialEq, Eq)]
pub enum Operand {
    /// An earlier step, by its number.
    Step(usize),
    /// A whole number: one, added that many times.
    Number(u64),
}

/// How one expression is made: what one call of an author wrote. Operands are the numbers of earlier steps.
#[derive(Clone, Copy, Debug, PartialEq, Eq)]
pub enum Step {
    /// A column of a trace, a periodic column or a public value.
    Variable { entry: BaseEntry, index: usize },
    IsFirstRow,
    IsLastRow,
    IsTransition,
    /// A whole number: one, added that many times.
    Number(u64),
    /// A constant of the field, by its place among the draft's constants.
    Constant(usize),
    Add(Operand, Operand),
    Sub(Operand, Operand),
    Mul(Operand, Operand),
    Neg(usize),
    /// A power of x: 1 for 0, else x, times x again and again, from the left.
    Power(usize, u32),
    /// x + y - 2xy, as (x + y) - (xy + xy).
    Xor(usize, usize),
    /// (1 - x) y
    AndNot(usize, usize),
}
