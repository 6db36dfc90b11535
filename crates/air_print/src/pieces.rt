//! The pieces of an expression's text that remain to be written.
ghost use Rattle.std.specs.Prelude.{◌≡◌, ◌++◌, OnOk, string_bytes};
ghost use Rattle.air_print.specs.Infix.{opening_text};
ghost use Rattle.air_print.specs.Pieces.{pair_pieces, node_front, node_rest};

use crate::binding::Binding;
use crate::leaves::{push_leaf, push_opening};
use air_field::PrimeField64;
use air_symbolic::{BaseLeaf, ExprId, SymbolicExpr, SymbolicExpression};
use std::alloc::AllocError;

/// A piece of text.
#[derive(Clone, Copy)]
pub enum Piece<F> {
    /// An expression, at a position.
    Operand(ExprId<BaseLeaf<F>>, Binding),
    Plus,
    Minus,
    Times,
    /// A closing parenthesis.
    Close,
}

// Two operands with an operator between them: appends the opening parenthesis, if any, and pushes the rest.
fn leave_pair<F: PrimeField64>(
    text: &mut String,
    rest: &mut Vec<Piece<F>>,
    wrap: bool,
    left: Piece<F>,
    operator: Piece<F>,
    right: Piece<F>,
) -> Result<(), AllocError>
    ensures front { OnOk result (string_bytes text.new ≡ string_bytes text.old
        ++ opening_text wrap) }
    ensures rest { OnOk result (rest.new.items ≡
        rest.old.items ++ pair_pieces wrap left operator right) }
{
    push_opening(text, wrap)?;
    if wrap {
        rest.push(Piece::Close)?;
    }
    rest.push(right)?;
    rest.push(operator)?;
    rest.push(left)?;
    Ok(())
}

/// Appends the beginning of a node's text, and pushes the pieces that remain.
pub fn leave_node<F: PrimeField64>(
    text: &mut String,
    rest: &mut Vec<Piece<F>>,
    node: SymbolicExpression<F>,
    within: Binding,
) -> Result<(), AllocError>
    ensures front { OnOk result (string_bytes text.new ≡
        string_bytes text.old ++ node_front F.residues within node) }
    ensures rest { OnOk result (rest.new.items ≡ rest.old.items ++ node_rest within node) }
{
    match node {
        SymbolicExpr::Leaf(leaf) => push_leaf(text, &leaf, within),
        SymbolicExpr::Add { x, y, .. } => leave_pair(
            text,
            rest,
            within.wraps_sum(),
            Piece::Operand(x, Binding::Loose),
            Piece::Plus,
            Piece::Operand(y, Binding::Summand),
        ),
        SymbolicExpr::Sub { x, y, .. } => leave_pair(
            text,
            rest,
            within.wraps_sum(),
            Piece::Operand(x, Binding::Loose),
            Piece::Minus,
            Piece::Operand(y, Binding::Summand),
        ),
        SymbolicExpr::Neg { x, .. } => {
            text.push_str("-")?;
            rest.push(Piece::Operand(x, Binding::Negated))?;
            Ok(())
        }
        SymbolicExpr::Mul { x, y, .. } => leave_pair(
            text,
            rest,
            within.wraps_product(),
            Piece::Operand(x, Binding::Summand),
            Piece::Times,
            Piece::Operand(y, Binding::Factor),
        ),
    }
}
