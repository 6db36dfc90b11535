//! The lines that show the constraints of a pool.
ghost use Rattle.std.specs.Prelude.{◌≡◌, ◌<◌, ◌++◌, map, All, IfOk, OnOk, string_bytes};
ghost use Rattle.air_symbolic.specs.Pools.{size};
ghost use Rattle.air_print.specs.Lines.{lines_text, number_lines, definition_line, constraint_line, ShowsRoots};

use crate::infix::{push_definition, push_infix};
use crate::labels::{shown_labels, text_at};
use crate::names::Names;
use air_field::PrimeField64;
use air_symbolic::{BaseLeaf, ExprId, ExprPool};
use std::alloc::{AllocError, Global};

/// Appends the definition of each named expression.
pub fn push_definitions<F: PrimeField64>(
    alloc: Global,
    text: &mut String,
    pool: &ExprPool<BaseLeaf<F>>,
    names: &Names<BaseLeaf<F>>,
) -> Result<(), AllocError>
    requires here { All (λ x. x < size pool.now) names.now.0 }
    ensures { OnOk result (string_bytes text.new ≡ string_bytes text.old
        ++ lines_text (number_lines (definition_line F.residues pool.now names.now.1)
        names.now.0)) }
{
    for (name, id) in names.named_expressions().iter().enumerate() {
        write!(text, "%{name} = ")?;
        push_definition(alloc, text, pool, names, *id)?;
        text.push_str("\n")?;
    }
    Ok(())
}

// Appends a line for each root, with its index, the shown label and its degree.
fn push_constraints<F: PrimeField64>(
    alloc: Global,
    text: &mut String,
    pool: &ExprPool<BaseLeaf<F>>,
    names: &Names<BaseLeaf<F>>,
    roots: &[ExprId<BaseLeaf<F>>],
    shown: &[String],
) -> Result<(), AllocError>
    requires here { All (λ x. x < size pool.now) roots.now }
    ensures { OnOk result (string_bytes text.new ≡ string_bytes text.old
        ++ lines_text (number_lines (constraint_line F.residues pool.now names.now.1
        (map string_bytes shown.now)) roots.now)) }
{
    for (place, root) in roots.iter().enumerate() {
        let label = text_at(shown, place);
        let degree = pool.degree_multiple(*root);
        write!(text, "#{place}{label} degree {degree}: ")?;
        push_infix(alloc, text, pool, names, *root)?;
        text.push_str("\n")?;
    }
    Ok(())
}

/// The lines that show the roots: first the definitions of the names, then each root with its degree and its label, if
/// that isn't empty.
pub fn show<F: PrimeField64>(
    alloc: Global,
    pool: &ExprPool<BaseLeaf<F>>,
    roots: &[ExprId<BaseLeaf<F>>],
    labels: &[String],
) -> Result<String, AllocError>
    requires here { All (λ x. x < size pool.now) roots.now }
    ensures { IfOk result (λ text. ShowsRoots F.residues pool.now roots.now
        (map string_bytes labels.now) (string_bytes text)) }
{
    let names = Names::of(alloc, pool, roots)?;
    let shown = shown_labels(alloc, labels)?;
    let mut text = String::new(alloc);
    push_definitions(alloc, &mut text, pool, &names)?;
    push_constraints(alloc, &mut text, pool, &names, roots, &shown)?;
    Ok(text)
}
