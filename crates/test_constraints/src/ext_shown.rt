//! Constraints over an extension as text, each operation of two in brackets.
ghost use Rattle.p3_air.specs.Pools.{FitsBase};
ghost use Rattle.p3_air.specs.ExtLeaves.{ext_reads};

use air_symbolic::reached_nodes;
use p3_air::{
    AirError, BaseEntry, BaseLeaf, ExprId, ExprPool, ExtEntry, ExtLeaf, ExtensionField, FlatExtAir,
    PrimeField64, Recorded, Root, SymLeaf, SymbolicExpr,
};
use std::alloc::{AllocError, Global};
use std::io;

/// A leaf that has a text, where the expressions of the base pool have theirs.
trait LeafText: SymLeaf {
    fn push_to(&self, text: &mut String, under: &[String]) -> Result<(), AllocError>;
}

impl<F: PrimeField64> LeafText for BaseLeaf<F> {
    fn push_to(&self, text: &mut String, _under: &[String]) -> Result<(), AllocError> {
        match self {
            BaseLeaf::Variable(v) => {
                let name = match v.entry {
                    BaseEntry::Preprocessed { offset: 0 } => "preprocessed",
                    BaseEntry::Preprocessed { .. } => "preprocessed_next",
                    BaseEntry::Main { offset: 0 } => "main",
                    BaseEntry::Main { .. } => "next",
                    BaseEntry::Periodic => "periodic",
                    BaseEntry::Public => "public",
                };
                write!(text, "{name}[{}]", v.index)
            }
            BaseLeaf::IsFirstRow => text.push_str("is_first_row"),
            BaseLeaf::IsLastRow => text.push_str("is_last_row"),
            BaseLeaf::IsTransition => text.push_str("is_transition"),
            BaseLeaf::Constant(c) => write!(text, "{}", c.as_canonical_u64()),
        }
    }
}

/// Adds the text of a number, if there is one.
fn push_text(text: &mut String, texts: &[String], number: usize) -> Result<(), AllocError> {
    match texts.get(number) {
        Some(other) => text.push_str(other),
        None => Ok(()),
    }
}

impl<F: PrimeField64, EF: ExtensionField<F>> LeafText for ExtLeaf<F, EF> {
    fn push_to(&self, text: &mut String, under: &[String]) -> Result<(), AllocError> {
        match self {
            ExtLeaf::Base(id) => push_text(text, under, id.number()),
            ExtLeaf::ExtVariable(v) => {
                let name = match v.entry {
                    ExtEntry::Permutation { offset: 0 } => "permutation",
                    ExtEntry::Permutation { .. } => "permutation_next",
                    ExtEntry::Challenge => "challenge",
                    ExtEntry::PermutationValue => "permutation_value",
                };
                write!(text, "{name}[{}]", v.index)
            }
            ExtLeaf::ExtConstant(c) => {
                for coefficient in c.as_basis_coefficients_slice() {
                    write!(text, "<{}>", coefficient.as_canonical_u64())?;
                }
                Ok(())
            }
        }
    }
}

/// Adds an operation of two, in brackets.
fn push_both(
    text: &mut String,
    texts: &[String],
    x: usize,
    sign: &str,
    y: usize,
) -> Result<(), AllocError> {
    text.push_str("(")?;
    push_text(text, texts, x)?;
    text.push_str(sign)?;
    push_text(text, texts, y)?;
    text.push_str(")")
}

/// The text of a node, of those of its operands.
fn text_of<A: LeafText>(
    alloc: Global,
    node: &SymbolicExpr<A>,
    texts: &[String],
    under: &[String],
) -> Result<String, AllocError> {
    let mut text = String::new(alloc);
    match node {
        SymbolicExpr::Leaf(leaf) => leaf.push_to(&mut text, under)?,
        SymbolicExpr::Add { x, y, .. } => {
            push_both(&mut text, texts, x.number(), " + ", y.number())?
        }
        SymbolicExpr::Sub { x, y, .. } => {
            push_both(&mut text, texts, x.number(), " - ", y.number())?
        }
        SymbolicExpr::Mul { x, y, .. } => {
            push_both(&mut text, texts, x.number(), " * ", y.number())?
        }
        SymbolicExpr::Neg { x, .. } => {
            text.push_str("-")?;
            push_text(&mut text, texts, x.number())?;
        }
    }
    Ok(text)
}

/// The texts of what roots reach, at the places of their numbers.
fn texts_of<A: LeafText>(
    alloc: Global,
    pool: &ExprPool<A>,
    roots: &[ExprId<A>],
    under: &[String],
) -> Result<Vec<String>, AirError>
    requires { FitsBase A.reads pool.now }
{
    if !roots.iter().all(|root| pool.contains(*root)) {
        return Err(AirError::EmptyList);
    }
    let marks = reached_nodes(alloc, pool, roots)?;
    let mut texts = Vec::new(alloc);
    for mark in &marks {
        let text = match mark {
            Some(id) if pool.contains(*id) => text_of(alloc, pool.node(*id), &texts, under)?,
            _ => String::new(alloc),
        };
        texts.push(text)?;
    }
    Ok(texts)
}

/// The texts of an AIR's expressions over the extension, and of those of the base pool.
#[derive(Drop)]
struct Texts {
    base: Vec<String>,
    ext: Vec<String>,
}

/// The base roots, and what leaves over the extension hold of the base pool.
fn base_roots<F: PrimeField64, EF: ExtensionField<F>>(
    alloc: Global,
    pool: &ExprPool<ExtLeaf<F, EF>>,
    base: &[ExprId<BaseLeaf<F>>],
    ext: &[ExprId<ExtLeaf<F, EF>>],
) -> Result<Vec<ExprId<BaseLeaf<F>>>, AirError>
    requires { FitsBase (ext_reads EF.basis) pool.now }
{
    if !ext.iter().all(|root| pool.contains(*root)) {
        return Err(AirError::EmptyList);
    }
    let mut ids = Vec::new(alloc);
    ids.extend_from_slice(base)?;
    for mark in &reached_nodes(alloc, pool, ext)? {
        let Some(id) = mark else {
            continue;
        };
        if !pool.contains(*id) {
            continue;
        }
        if let SymbolicExpr::Leaf(ExtLeaf::Base(held)) = pool.node(*id) {
            ids.push(*held)?;
        }
    }
    Ok(ids)
}

/// The texts of what roots of both kinds reach.
fn texts_of_both<F: PrimeField64, EF: ExtensionField<F>>(
    alloc: Global,
    pool: &ExprPool<ExtLeaf<F, EF>>,
    base: &[ExprId<BaseLeaf<F>>],
    ext: &[ExprId<ExtLeaf<F, EF>>],
) -> Result<Texts, AirError>
    requires { FitsBase (ext_reads EF.basis) pool.now }
{
    let under = base_roots(alloc, pool, base, ext)?;
    let base = texts_of(alloc, pool.base(), &under, &[])?;
    let ext = texts_of(alloc, pool, ext, &base)?;
    Ok(Texts { base, ext })
}

/// The texts of what an AIR's roots reach.
fn texts_of_air<F: PrimeField64, EF: ExtensionField<F>>(
    alloc: Global,
    air: &FlatExtAir<F, EF>,
) -> Result<Texts, AirError> {
    let mut base = Vec::new(alloc);
    let mut ext = Vec::new(alloc);
    for root in &air.roots {
        match root {
            Root::Base(id) => base.push(*id)?,
            Root::Extension(id) => ext.push(*id)?,
        }
    }
    texts_of_both(alloc, &air.pool, &base, &ext)
}

/// The lines of what was recorded: the base constraints, then those over the extension.
pub fn recorded_shown<F: PrimeField64, EF: ExtensionField<F>>(
    alloc: Global,
    recorded: &Recorded<F, EF>,
) -> Result<String, AirError> {
    let texts = texts_of_both(alloc, &recorded.pool, &recorded.base, &recorded.ext)?;
    let mut lines = String::new(alloc);
    for (place, id) in recorded.base.iter().enumerate() {
        let root: Root<F, EF> = Root::Base(*id);
        push_line(&mut lines, &texts, place, root, "")?;
    }
    for (place, id) in recorded.ext.iter().enumerate() {
        push_line(&mut lines, &texts, place, Root::Extension(*id), "")?;
    }
    Ok(lines)
}

/// Adds a line: the constraint's place, its kind, its label and its text.
fn push_line<F: PrimeField64, EF: ExtensionField<F>>(
    lines: &mut String,
    texts: &Texts,
    place: usize,
    root: Root<F, EF>,
    label: &str,
) -> Result<(), AllocError> {
    let (kind, texts, number) = match root {
        Root::Base(id) => ("base", &texts.base, id.number()),
        Root::Extension(id) => ("ext", &texts.ext, id.number()),
    };
    write!(lines, "#{place} {kind}")?;
    if !label.is_empty() {
        write!(lines, " {label:?}")?;
    }
    lines.push_str(": ")?;
    push_text(lines, texts, number)?;
    lines.push_str("\n")
}

/// The lines of an AIR's constraints, in order.
pub fn ext_shown<F: PrimeField64, EF: ExtensionField<F>>(
    alloc: Global,
    air: &FlatExtAir<F, EF>,
) -> Result<String, AirError> {
    let texts = texts_of_air(alloc, air)?;
    let mut lines = String::new(alloc);
    for (place, root) in air.roots.iter().enumerate() {
        push_line(&mut lines, &texts, place, *root, air.label(place))?;
    }
    Ok(lines)
}

/// Prints a heading, and below it the constraints, or why there are none.
pub fn print_ext_shown<F: PrimeField64, EF: ExtensionField<F>>(
    rt: &HostRuntime,
    heading: &str,
    air: Result<FlatExtAir<F, EF>, AirError>,
) -> io::Result<()> {
    println!(rt; "== {heading}")?;
    let air = match air {
        Ok(air) => air,
        Err(error) => return println!(rt; "refused: {error}"),
    };
    match ext_shown(rt.alloc(), &air) {
        Ok(lines) => print!(rt; "{lines}"),
        Err(error) => println!(rt; "refused: {error}"),
    }
}
