//! The texts of recorded expressions.
ghost use Rattle.air_symbolic.specs.Pools.{FitsBase};

use air_field::{ExtensionField, Field};
use air_symbolic::{BaseLeaf, ExprId, ExprPool, ExtLeaf, SymLeaf, SymbolicExpr};
use test_lines::Fault;
use test_lines::words::{Number, show_elements};

fn show_leaf<F: Number>(leaf: BaseLeaf<F>, text: &mut String) -> Result<(), Fault> {
    match leaf {
        BaseLeaf::Variable(v) => {
            let (entry, index) = (v.entry, v.index);
            write!(text, "{entry:?} {index}")?;
        }
        BaseLeaf::IsFirstRow => text.push_str("IsFirstRow")?,
        BaseLeaf::IsLastRow => text.push_str("IsLastRow")?,
        BaseLeaf::IsTransition => text.push_str("IsTransition")?,
        BaseLeaf::Constant(c) => {
            let number = c.number();
            write!(text, "{number}")?;
        }
    }
    Ok(())
}

/// Adds the tree of a base expression, to this depth. A constant is its number, and operands are in brackets.
pub fn show_tree<F: Number>(
    pool: &ExprPool<BaseLeaf<F>>,
    id: ExprId<BaseLeaf<F>>,
    depth: usize,
    text: &mut String,
) -> Result<(), Fault> {
    if depth == 0 || !pool.contains(id) {
        text.push_str("?")?;
        return Ok(());
    }
    let (x, operation, y) = match *pool.node(id) {
        SymbolicExpr::Leaf(leaf) => return show_leaf(leaf, text),
        SymbolicExpr::Neg { x, .. } => (None, "-", x),
        SymbolicExpr::Add { x, y, .. } => (Some(x), " + ", y),
        SymbolicExpr::Sub { x, y, .. } => (Some(x), " - ", y),
        SymbolicExpr::Mul { x, y, .. } => (Some(x), " * ", y),
    };
    text.push_str("(")?;
    if let Some(x) = x {
        show_tree(pool, x, depth - 1, text)?;
    }
    text.push_str(operation)?;
    show_tree(pool, y, depth - 1, text)?;
    text.push_str(")")?;
    Ok(())
}

// The sum, the difference or the product.
fn apply_operation<F: Field, EF: ExtensionField<F>>(operation: char, x: EF, y: EF) -> EF {
    match operation {
        '+' => x.add(y),
        '-' => x.sub(y),
        _ => x.mul(y),
    }
}

// The value of an expression over constants only, to this depth.
fn value_of<F: Field, EF: ExtensionField<F>>(
    pool: &ExprPool<ExtLeaf<F, EF>>,
    id: ExprId<ExtLeaf<F, EF>>,
    depth: usize,
) -> Option<EF>
    requires { FitsBase ⟦<ExtLeaf<F, EF> as SymLeaf>⟧.reads pool.now }
{
    if depth == 0 || !pool.contains(id) {
        return None;
    }
    if let Some(c) = pool.as_const(id) {
        return Some(EF::from_base(c));
    }
    let (x, operation, y) = match *pool.node(id) {
        SymbolicExpr::Leaf(ExtLeaf::ExtConstant(c)) => return Some(c),
        SymbolicExpr::Leaf(_) => return None,
        SymbolicExpr::Neg { x, .. } => return Some(value_of(pool, x, depth - 1)?.neg()),
        SymbolicExpr::Add { x, y, .. } => (x, '+', y),
        SymbolicExpr::Sub { x, y, .. } => (x, '-', y),
        SymbolicExpr::Mul { x, y, .. } => (x, '*', y),
    };
    let left = value_of(pool, x, depth - 1)?;
    let right = value_of(pool, y, depth - 1)?;
    Some(apply_operation::<F, EF>(operation, left, right))
}

/// Adds the value of an expression over constants only.
pub fn show_value<F: Number, EF: ExtensionField<F>>(
    pool: &ExprPool<ExtLeaf<F, EF>>,
    id: ExprId<ExtLeaf<F, EF>>,
    text: &mut String,
) -> Result<(), Fault>
    requires { FitsBase ⟦<ExtLeaf<F, EF> as SymLeaf>⟧.reads pool.now }
{
    match value_of(pool, id, 9) {
        Some(value) => show_elements(value.as_basis_coefficients_slice(), text),
        None => {
            text.push_str("no constant")?;
            Ok(())
        }
    }
}
