//! Recordings of an AIR, and their inferred degrees.
ghost use Rattle.std.specs.Prelude.{◌≡◌};
ghost use Rattle.air_symbolic.specs.Pools.{FitsBase};

use crate::expressions::{show_base_expressions, show_ext_expressions};
use air_builder::{Air, AirError};
use air_field::{ExtensionField, Field};
use air_recording::{
    AirLayout, Recorded, SymbolicAirBuilder, get_all_symbolic_constraints, get_constraint_layout,
    get_max_constraint_degree, get_max_constraint_degree_extension, get_symbolic_constraints,
    get_symbolic_constraints_extension,
};
use air_symbolic::{BaseLeaf, ExprId, ExprPool, ExtLeaf, SymLeaf};
use std::alloc::Global;
use test_lines::words::{Number, count_of, counts_of};
use test_lines::{Fault, Why};

pub type Recorder<F, EF> = SymbolicAirBuilder<F, EF>;

/// The base pool of a recording.
pub fn base_pool<F: Field, EF: ExtensionField<F>>(
    recorded: &Recorded<F, EF>,
) -> &ExprPool<BaseLeaf<F>>
    ensures base { result.now ≡ recorded.now.pool.base }
{
    recorded.pool.base()
}

/// Adds the base constraints.
pub fn show_base<F: Number, EF: ExtensionField<F>>(
    recorded: &Recorded<F, EF>,
    text: &mut String,
) -> Result<(), Fault> {
    show_base_expressions(base_pool(recorded), &recorded.base, text)
}

// Adds the base constraints, and the number of extension constraints if there are any.
fn show_base_alone<F: Number>(recorded: &Recorded<F, F>, text: &mut String) -> Result<(), Fault> {
    show_base(recorded, text)?;
    let ext = recorded.ext.len();
    if ext > 0 {
        write!(text, ", and {ext} over the extension")?;
    }
    Ok(())
}

// Adds the degrees that the nodes of expressions state.
fn show_degrees<A: SymLeaf>(
    pool: &ExprPool<A>,
    numbers: &[ExprId<A>],
    text: &mut String,
) -> Result<(), Fault>
    requires { FitsBase A.reads pool.now }
{
    for (place, number) in numbers.iter().enumerate() {
        text.push_str(if place == 0 { "" } else { " " })?;
        if pool.contains(*number) {
            let degree = pool.degree_multiple(*number);
            write!(text, "{degree}")?;
        }
    }
    Ok(())
}

// Adds the degrees of the polynomials of expressions over a number of rows.
fn show_poly_degrees<A: SymLeaf>(
    pool: &ExprPool<A>,
    numbers: &[ExprId<A>],
    rows: usize,
    periods: &[usize],
    text: &mut String,
) -> Result<(), Fault>
    requires { FitsBase A.reads pool.now }
{
    for (place, number) in numbers.iter().enumerate() {
        text.push_str(if place == 0 { "" } else { " " })?;
        if pool.contains(*number) {
            let degree = pool.poly_degree(*number, rows, periods)?;
            write!(text, "{degree}")?;
        }
    }
    Ok(())
}

// The question about an AIR's base constraints.
#[derive(Drop)]
enum Asked {
    Constraints,
    /// The degrees that their nodes state.
    Degrees,
    /// The degrees of their polynomials over a number of rows, with these lengths of the periodic columns.
    PolyDegrees { rows: usize, periods: Vec<usize> },
}

// The question that a call without more words asks, or `None`.
fn asked_alone(call: &str) -> Option<Asked> {
    match call {
        "get_symbolic_constraints" => Some(Asked::Constraints),
        "degree_multiples" => Some(Asked::Degrees),
        _ => None,
    }
}

// The question that a call asks, or `None`.
fn asked_of(alloc: Global, call: &str, words: &[&str]) -> Result<Option<Asked>, Fault> {
    match words {
        [] => Ok(asked_alone(call)),
        [rows, periods] if call == "poly_degrees" => {
            let rows = count_of(*rows)?;
            let periods = counts_of(alloc, *periods)?;
            Ok(Some(Asked::PolyDegrees { rows, periods }))
        }
        _ => Ok(None),
    }
}

// Adds the answer about the base constraints of a recording.
fn show_asked<F: Number>(
    recorded: &Recorded<F, F>,
    asked: &Asked,
    text: &mut String,
) -> Result<(), Fault> {
    match asked {
        Asked::Constraints => show_base_alone(recorded, text),
        Asked::Degrees => show_degrees(base_pool(recorded), &recorded.base, text),
        Asked::PolyDegrees { rows, periods } => {
            show_poly_degrees(base_pool(recorded), &recorded.base, *rows, periods, text)
        }
    }
}

// Adds the answer about the base constraints of an AIR.
fn show_asked_of<F: Number, A: Air<Recorder<F, F>>>(
    alloc: Global,
    air: &A,
    layout: AirLayout,
    asked: &Asked,
    text: &mut String,
) -> Result<(), Fault> {
    let recorded = get_symbolic_constraints::<F, A>(alloc, air, layout)?;
    show_asked(&recorded, asked, text)
}

/// Adds the constraints of both kinds.
pub fn show_both<F: Number, EF: ExtensionField<F>>(
    recorded: &Recorded<F, EF>,
    text: &mut String,
) -> Result<(), Fault> {
    text.push_str("base: ")?;
    show_base(recorded, text)?;
    text.push_str(" | extension: ")?;
    show_ext_expressions(&recorded.pool, &recorded.ext, text)
}

fn show_all<F: Number, EF: ExtensionField<F>, A: Air<Recorder<F, EF>>>(
    alloc: Global,
    air: &A,
    layout: AirLayout,
    text: &mut String,
) -> Result<(), Fault> {
    let recorded = get_all_symbolic_constraints::<F, EF, A>(alloc, air, layout)?;
    show_both(&recorded, text)
}

fn show_extension<F: Number, EF: ExtensionField<F>, A: Air<Recorder<F, EF>>>(
    alloc: Global,
    air: &A,
    layout: AirLayout,
    text: &mut String,
) -> Result<(), Fault> {
    let recorded = get_symbolic_constraints_extension::<F, EF, A>(alloc, air, layout)?;
    show_both(&recorded, text)
}

// The builder after the AIR's `eval`.
fn evaluate_air<F: Number, EF: ExtensionField<F>, A: Air<Recorder<F, EF>>>(
    alloc: Global,
    air: &A,
    layout: AirLayout,
) -> Result<Recorder<F, EF>, AirError> {
    let mut builder: Recorder<F, EF> = SymbolicAirBuilder::new(alloc, layout)?;
    air.eval(&mut builder)?;
    Ok(builder)
}

// Adds the number of recorded constraints of each kind, and their indices.
fn show_places<F: Number, EF: ExtensionField<F>>(
    builder: &Recorder<F, EF>,
    text: &mut String,
) -> Result<(), Fault> {
    let base = builder.base_constraints().len();
    let ext = builder.extension_constraints().len();
    let places = builder.constraint_layout()?;
    write!(text, "{base} base, {ext} extension, {places:?}")?;
    Ok(())
}

// Adds the number of constraints that an AIR records, and their indices.
fn show_evaluated<F: Number, EF: ExtensionField<F>, A: Air<Recorder<F, EF>>>(
    alloc: Global,
    air: &A,
    layout: AirLayout,
    text: &mut String,
) -> Result<(), Fault> {
    let builder = evaluate_air::<F, EF, A>(alloc, air, layout)?;
    show_places(&builder, text)
}

// Adds the constraint indices of each kind.
fn show_layout<F: Number, EF: ExtensionField<F>, A: Air<Recorder<F, EF>>>(
    alloc: Global,
    air: &A,
    layout: AirLayout,
    text: &mut String,
) -> Result<(), Fault> {
    let places = get_constraint_layout::<F, EF, A>(alloc, air, layout)?;
    write!(text, "{places:?}")?;
    Ok(())
}

// Adds the inferred degree.
fn show_inferred<F: Number, A: Air<Recorder<F, F>>>(
    alloc: Global,
    air: &A,
    layout: AirLayout,
    rows: &str,
    weight: &str,
    text: &mut String,
) -> Result<(), Fault> {
    let (rows, weight) = (count_of(rows)?, count_of(weight)?);
    let degree = get_max_constraint_degree::<F, A>(alloc, air, layout, rows, weight)?;
    write!(text, "{degree}")?;
    Ok(())
}

// Adds the inferred degree over the extension.
fn show_inferred_extension<F: Number, EF: ExtensionField<F>, A: Air<Recorder<F, EF>>>(
    alloc: Global,
    air: &A,
    layout: AirLayout,
    rows: &str,
    weight: &str,
    text: &mut String,
) -> Result<(), Fault> {
    let (rows, weight) = (count_of(rows)?, count_of(weight)?);
    let degree = get_max_constraint_degree_extension::<F, EF, A>(alloc, air, layout, rows, weight)?;
    write!(text, "{degree}")?;
    Ok(())
}

// Adds the inferred degree of an AIR. Returns whether the call asks for it.
fn answer_inferred<F: Number, A: Air<Recorder<F, F>>>(
    alloc: Global,
    air: &A,
    layout: AirLayout,
    call: &str,
    words: &[&str],
    text: &mut String,
) -> Result<bool, Fault> {
    match words {
        [rows, weight] if call == "get_max_constraint_degree" => {
            show_inferred::<F, A>(alloc, air, layout, *rows, *weight, text)?;
            Ok(true)
        }
        _ => Ok(false),
    }
}

/// Adds the answer of a call that records an AIR over the base field. Returns whether this is such a call.
pub fn answer_base<F: Number, A: Air<Recorder<F, F>>>(
    alloc: Global,
    air: &A,
    layout: AirLayout,
    call: &str,
    words: &[&str],
    text: &mut String,
) -> Result<bool, Fault> {
    match asked_of(alloc, call, words)? {
        Some(asked) => {
            show_asked_of::<F, A>(alloc, air, layout, &asked, text)?;
            Ok(true)
        }
        None => answer_inferred::<F, A>(alloc, air, layout, call, words, text),
    }
}

// Adds the answer of a call without more words.
fn answer_alone<F: Number, EF: ExtensionField<F>, A: Air<Recorder<F, EF>>>(
    alloc: Global,
    air: &A,
    layout: AirLayout,
    call: &str,
    text: &mut String,
) -> Result<(), Fault> {
    match call {
        "get_all_symbolic_constraints" => show_all::<F, EF, A>(alloc, air, layout, text),
        "get_symbolic_constraints_extension" => show_extension::<F, EF, A>(
            alloc, air, layout, text,
        ),
        "get_constraint_layout" => show_layout::<F, EF, A>(alloc, air, layout, text),
        "eval" => show_evaluated::<F, EF, A>(alloc, air, layout, text),
        _ => Err(Fault::Unreadable(Why::NoSuchCall)),
    }
}

/// Adds the answer of a call that records an AIR with an extension.
pub fn answer_extension<F: Number, EF: ExtensionField<F>, A: Air<Recorder<F, EF>>>(
    alloc: Global,
    air: &A,
    layout: AirLayout,
    call: &str,
    words: &[&str],
    text: &mut String,
) -> Result<(), Fault> {
    match words {
        [] => answer_alone::<F, EF, A>(alloc, air, layout, call, text),
        [rows, weight] if call == "get_max_constraint_degree_extension" => {
            show_inferred_extension::<F, EF, A>(alloc, air, layout, *rows, *weight, text)
        }
        _ => Err(Fault::Unreadable(Why::NoSuchCall)),
    }
}
