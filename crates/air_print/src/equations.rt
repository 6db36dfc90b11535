//! Expressions and their values, as equations.
ghost use Rattle.std.specs.Prelude.{◌≡◌, ◌<◌, ◌++◌, length, map, slice_index_or, All, OnOk, codes, string_bytes, if◌then◌else◌};
ghost use Rattle.air_symbolic.specs.Pools.{size};
ghost use Rattle.air_print.specs.Lines.{lines_text};
ghost use Rattle.air_print.specs.Equations.{equation, equation_lines};

use crate::infix::push_infix;
use crate::leaves::push_constant;
use crate::names::Names;
use crate::values::value;
use air_field::PrimeField64;
use air_symbolic::{BaseLeaf, ExprId, ExprPool};
use std::alloc::{AllocError, Global};

/// Appends the text of an expression and its value.
pub(crate) fn push_equation<F: PrimeField64>(
    alloc: Global,
    text: &mut String,
    pool: &ExprPool<BaseLeaf<F>>,
    names: &Names<BaseLeaf<F>>,
    values: &[F],
    id: ExprId<BaseLeaf<F>>,
) -> Result<(), AllocError>
    requires here { id < size pool.now }
    requires places { length values.now ≡ size pool.now }
    ensures { OnOk result (string_bytes text.new ≡ string_bytes text.old ++
        equation F.residues pool.now names.now.1 (λ i. slice_index_or values.now i F.ring.zero) id) }
{
    push_infix(alloc, text, pool, names, id)?;
    text.push_str(" = ")?;
    push_constant(text, value(values, id.number()))
}

// Appends the text before an equation of a line: indentation before the first, otherwise a comma.
fn push_separator(text: &mut String, is_first: bool) -> Result<(), AllocError>
    ensures { OnOk result (string_bytes text.new ≡ string_bytes text.old
        ++ (if is_first then codes "  " else codes ", ")) }
{
    if is_first {
        text.push_str("  ")
    } else {
        text.push_str(", ")
    }
}

/// Appends the equations as one line; no line if there are none.
pub(crate) fn push_equations<F: PrimeField64>(
    alloc: Global,
    text: &mut String,
    pool: &ExprPool<BaseLeaf<F>>,
    names: &Names<BaseLeaf<F>>,
    values: &[F],
    ids: &[ExprId<BaseLeaf<F>>],
) -> Result<(), AllocError>
    requires here { All (λ i. i < size pool.now) ids.now }
    requires places { length values.now ≡ size pool.now }
    ensures { OnOk result (string_bytes text.new ≡ string_bytes text.old ++ lines_text
        (equation_lines (map (equation F.residues pool.now names.now.1
        (λ i. slice_index_or values.now i F.ring.zero)) ids.now))) }
{
    let mut is_first = true;
    for id in ids {
        push_separator(text, is_first)?;
        is_first = false;
        push_equation(alloc, text, pool, names, values, *id)?;
    }
    if ids.is_empty() {
        return Ok(());
    }
    text.push_str("\n")?;
    Ok(())
}
