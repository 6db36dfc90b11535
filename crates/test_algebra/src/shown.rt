//! Expressions as texts: the first name of the expression, or its node if it has no name.
ghost use Rattle.std.specs.Prelude.{◌<◌};
ghost use Rattle.air_symbolic.specs.Pools.{FitsBase};

use air_symbolic::{BaseLeaf, ExprId, ExprPool, SymLeaf, SymbolicExpr};
use test_lines::{Fault, Names, Why};

/// A leaf that has a text.
pub trait Shown: SymLeaf {
    /// The number of a constant.
    fn number(c: Self::F) -> u64;

    /// Adds the text of the leaf.
    fn show(
        &self,
        base: &Names<'_, ExprId<BaseLeaf<Self::F>>>,
        text: &mut String,
    ) -> Result<(), Fault>;
}

/// Adds the constant found for folding, or `None`.
pub fn show_constant<A: Shown>(found: Option<A::F>, text: &mut String) -> Result<(), Fault> {
    match found {
        Some(c) => {
            let number = A::number(c);
            write!(text, "{number}")?;
        }
        None => text.push_str("None")?,
    }
    Ok(())
}

// The first name of an expression.
fn name_of<'a, A: SymLeaf>(names: &Names<'a, ExprId<A>>, x: ExprId<A>) -> Option<&'a str> {
    for (place, known) in names.values().iter().enumerate() {
        if *known == x {
            return names.words().get(place).copied();
        }
    }
    None
}

/// Adds the first name of an expression, or its number if it has no name.
pub fn show_operand<A: SymLeaf>(
    names: &Names<'_, ExprId<A>>,
    x: ExprId<A>,
    text: &mut String,
) -> Result<(), Fault> {
    match name_of(names, x) {
        Some(name) => text.push_str(name)?,
        None => {
            let number = x.number();
            write!(text, "#{number}")?;
        }
    }
    Ok(())
}

// Adds one or two operands.
fn show_operands<A: SymLeaf>(
    names: &Names<'_, ExprId<A>>,
    x: ExprId<A>,
    y: Option<ExprId<A>>,
    text: &mut String,
) -> Result<(), Fault> {
    show_operand(names, x, text)?;
    match y {
        Some(y) => {
            text.push_str(" ")?;
            show_operand(names, y, text)
        }
        None => Ok(()),
    }
}

// Adds an operation on one or two expressions.
fn show_operation<A: SymLeaf>(
    names: &Names<'_, ExprId<A>>,
    word: &str,
    x: ExprId<A>,
    y: Option<ExprId<A>>,
    degree: usize,
    text: &mut String,
) -> Result<(), Fault> {
    text.push_str(word)?;
    show_operands(names, x, y, text)?;
    write!(text, " degree {degree}")?;
    Ok(())
}

// Adds a node, with its operands by their names, or by their numbers if they have none.
fn show_node<A: Shown>(
    names: &Names<'_, ExprId<A>>,
    base: &Names<'_, ExprId<BaseLeaf<A::F>>>,
    node: &SymbolicExpr<A>,
    text: &mut String,
) -> Result<(), Fault> {
    match node {
        SymbolicExpr::Leaf(a) => {
            text.push_str("Leaf ")?;
            a.show(base, text)
        }
        SymbolicExpr::Add {
            x,
            y,
            degree_multiple,
        } => show_operation(names, "Add ", *x, Some(*y), *degree_multiple, text),
        SymbolicExpr::Sub {
            x,
            y,
            degree_multiple,
        } => show_operation(names, "Sub ", *x, Some(*y), *degree_multiple, text),
        SymbolicExpr::Neg { x, degree_multiple } => {
            show_operation(names, "Neg ", *x, None, *degree_multiple, text)
        }
        SymbolicExpr::Mul {
            x,
            y,
            degree_multiple,
        } => show_operation(names, "Mul ", *x, Some(*y), *degree_multiple, text),
    }
}

/// Adds the first name of an expression, or its node if it has no name.
pub fn show_expression<A: Shown>(
    pool: &ExprPool<A>,
    names: &Names<'_, ExprId<A>>,
    base: &Names<'_, ExprId<BaseLeaf<A::F>>>,
    x: ExprId<A>,
    text: &mut String,
) -> Result<(), Fault>
    requires { FitsBase A.reads pool.now }
{
    match name_of(names, x) {
        Some(name) => {
            text.push_str(name)?;
            Ok(())
        }
        None if pool.contains(x) => show_node(names, base, pool.node(x), text),
        None => Err(Fault::Unreadable(Why::OtherPool)),
    }
}

/// Adds the node of each name, in order.
pub fn show_all<A: Shown>(
    pool: &ExprPool<A>,
    names: &Names<'_, ExprId<A>>,
    base: &Names<'_, ExprId<BaseLeaf<A::F>>>,
    text: &mut String,
) -> Result<(), Fault>
    requires { FitsBase A.reads pool.now }
{
    for x in names.values() {
        if !pool.contains(*x) {
            return Err(Fault::Unreadable(Why::OtherPool));
        }
        show_node(names, base, pool.node(*x), text)?;
        text.push_str("; ")?;
    }
    Ok(())
}
