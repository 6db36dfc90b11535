//! The steps of a draft over an extension.

use air_core::SymbolicVariableExt;

/// How one expression over the extension is made. Operands are the numbers of earlier steps over the extension; that of
/// `Lift` is the number of a step of base expressions.
#[derive(Clone, Copy, Debug, PartialEq, Eq)]
pub enum ExtStep<F, EF> {
    Lift(usize),
    Variable(SymbolicVariableExt<F, EF>),
    Constant(EF),
    Add(usize, usize),
    Sub(usize, usize),
    Neg(usize),
    Mul(usize, usize),
}
