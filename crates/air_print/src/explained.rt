//! The lines that explain an expression, and the lines of the names in them.
ghost use Rattle.std.specs.Prelude.{◌≡◌, ◌<◌, ◌++◌, [], length, slice_index_or, All, OnOk, codes, string_bytes, if◌then◌else◌};
ghost use Rattle.air_symbolic.specs.Pools.{size};
ghost use Rattle.air_print.specs.Lines.{lines_text, definition_line};
ghost use Rattle.air_print.specs.Names.{is_reached};
ghost use Rattle.air_print.specs.Explained.{explained_lines, reached_definitions};

use crate::equations::{push_equation, push_equations};
use crate::infix::push_definition;
use crate::names::Names;
use air_field::PrimeField64;
use air_symbolic::{BaseLeaf, ExprId, ExprPool};
use std::alloc::{AllocError, Global};

// Whether an expression is marked.
fn is_marked<F: PrimeField64>(
    marks: &[Option<ExprId<BaseLeaf<F>>>],
    id: ExprId<BaseLeaf<F>>,
) -> bool
    ensures { result ≡ is_reached marks.now id }
{
    match marks.get(id.number()) {
        Some(mark) => mark.is_some(),
        None => false,
    }
}

// Appends the line of a name, if its expression is marked.
fn push_name<F: PrimeField64>(
    alloc: Global,
    text: &mut String,
    pool: &ExprPool<BaseLeaf<F>>,
    names: &Names<BaseLeaf<F>>,
    marks: &[Option<ExprId<BaseLeaf<F>>>],
    name: usize,
    id: ExprId<BaseLeaf<F>>,
) -> Result<(), AllocError>
    requires here { id < size pool.now }
    ensures { OnOk result (string_bytes text.new ≡ string_bytes text.old ++
        (if is_reached marks.now id
        then definition_line F.residues pool.now names.now.1 name id ++ codes "\n" else [])) }
{
    if is_marked(marks, id) {
        write!(text, "%{name} = ")?;
        push_definition(alloc, text, pool, names, id)?;
        text.push_str("\n")?;
    }
    Ok(())
}

/// Appends the definition of each named expression that is marked.
pub fn push_reached_definitions<F: PrimeField64>(
    alloc: Global,
    text: &mut String,
    pool: &ExprPool<BaseLeaf<F>>,
    names: &Names<BaseLeaf<F>>,
    marks: &[Option<ExprId<BaseLeaf<F>>>],
) -> Result<(), AllocError>
    requires here { All (λ x. x < size pool.now) names.now.0 }
    ensures { OnOk result (string_bytes text.new ≡ string_bytes text.old ++ lines_text
        (reached_definitions F.residues pool.now names.now marks.now)) }
{
    for (name, id) in names.named_expressions().iter().enumerate() {
        push_name(alloc, text, pool, names, marks, name, *id)?;
    }
    Ok(())
}

/// Appends a line for the expression and its value, and a line for the expressions that it reads and their values, if
/// there are any. `values` is indexed by id.
pub fn push_explained<F: PrimeField64>(
    alloc: Global,
    text: &mut String,
    pool: &ExprPool<BaseLeaf<F>>,
    names: &Names<BaseLeaf<F>>,
    values: &[F],
    root: ExprId<BaseLeaf<F>>,
    reads: &[ExprId<BaseLeaf<F>>],
) -> Result<(), AllocError>
    requires here { root < size pool.now }
    requires reads { All (λ i. i < size pool.now) reads.now }
    requires places { length values.now ≡ size pool.now }
    ensures { OnOk result (string_bytes text.new ≡ string_bytes text.old ++ lines_text
        (explained_lines F.residues pool.now names.now.1 (λ i. slice_index_or values.now i F.ring.zero)
        root reads.now)) }
{
    text.push_str("  ")?;
    push_equation(alloc, text, pool, names, values, root)?;
    text.push_str("\n")?;
    push_equations(alloc, text, pool, names, values, reads)
}
