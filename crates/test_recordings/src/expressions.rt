//! Recorded expressions as texts.
ghost use Rattle.air_symbolic.specs.Pools.{FitsBase};

use air_core::{BaseEntry, ExtEntry};
use air_field::{ExtensionField, Field};
use air_symbolic::{
    BaseLeaf, ExprId, ExprPool, ExtLeaf, SymLeaf, SymbolicExpr, SymbolicVariable,
    SymbolicVariableExt,
};
use std::fmt::Debug;
use test_lines::Fault;
use test_lines::words::{Number, show_elements};

/// The depth to which a tree is shown.
const DEPTH: usize = 8;

/// A variable that has a text, such as `main[0]`, or `next_main[0]` in the next row.
pub trait ShownVariable: Copy {
    /// Adds the variable.
    fn show(self, text: &mut String) -> Result<(), Fault>;
}

// Adds an entry's variable, by the entry's name if it has one.
fn show_entry<E: Debug>(
    name: Option<&str>,
    entry: &E,
    index: usize,
    text: &mut String,
) -> Result<(), Fault> {
    match name {
        Some(name) => write!(text, "{name}[{index}]")?,
        None => write!(text, "{entry:?}[{index}]")?,
    }
    Ok(())
}

fn base_name(entry: BaseEntry) -> Option<&'static str> {
    match entry {
        BaseEntry::Main { offset: 0 } => Some("main"),
        BaseEntry::Main { offset: 1 } => Some("next_main"),
        BaseEntry::Preprocessed { offset: 0 } => Some("preprocessed"),
        BaseEntry::Preprocessed { offset: 1 } => Some("next_preprocessed"),
        BaseEntry::Periodic => Some("periodic"),
        BaseEntry::Public => Some("public"),
        _ => None,
    }
}

fn ext_name(entry: ExtEntry) -> Option<&'static str> {
    match entry {
        ExtEntry::Permutation { offset: 0 } => Some("permutation"),
        ExtEntry::Permutation { offset: 1 } => Some("next_permutation"),
        ExtEntry::Challenge => Some("challenge"),
        ExtEntry::PermutationValue => Some("permutation_value"),
        _ => None,
    }
}

impl<F: Field> ShownVariable for SymbolicVariable<F> {
    fn show(self, text: &mut String) -> Result<(), Fault> {
        show_entry(base_name(self.entry), &self.entry, self.index, text)
    }
}

impl<F: Field, EF: ExtensionField<F>> ShownVariable for SymbolicVariableExt<F, EF> {
    fn show(self, text: &mut String) -> Result<(), Fault> {
        show_entry(ext_name(self.entry), &self.entry, self.index, text)
    }
}

/// A leaf that has a text.
pub trait ShownLeaf: SymLeaf {
    /// Adds the leaf. An expression of the base pool in it is shown to this depth; `inside` says whether an operation
    /// gets brackets.
    fn show(
        &self,
        base: &Self::Base,
        depth: usize,
        inside: bool,
        text: &mut String,
    ) -> Result<(), Fault>;
}

impl<F: Number> ShownLeaf for BaseLeaf<F> {
    fn show(
        &self,
        _under: &(),
        _depth: usize,
        _inside: bool,
        text: &mut String,
    ) -> Result<(), Fault> {
        let name = match self {
            BaseLeaf::Variable(v) => return v.show(text),
            BaseLeaf::IsFirstRow => "is_first_row",
            BaseLeaf::IsLastRow => "is_last_row",
            BaseLeaf::IsTransition => "is_transition",
            BaseLeaf::Constant(c) => {
                let number = c.number();
                write!(text, "{number}")?;
                return Ok(());
            }
        };
        text.push_str(name)?;
        Ok(())
    }
}

impl<F: Number, EF: ExtensionField<F>> ShownLeaf for ExtLeaf<F, EF> {
    fn show(
        &self,
        base: &ExprPool<BaseLeaf<F>>,
        depth: usize,
        inside: bool,
        text: &mut String,
    ) -> Result<(), Fault> {
        match self {
            ExtLeaf::Base(id) => show_expression(base, *id, depth, inside, text),
            ExtLeaf::ExtVariable(v) => v.show(text),
            ExtLeaf::ExtConstant(c) => show_elements(c.as_basis_coefficients_slice(), text),
        }
    }
}

// Adds an expression to this depth. Operations that are operands are in brackets.
fn show_expression<A: ShownLeaf>(
    pool: &ExprPool<A>,
    id: ExprId<A>,
    depth: usize,
    inside: bool,
    text: &mut String,
) -> Result<(), Fault>
    requires { FitsBase A.reads pool.now }
{
    if depth == 0 || !pool.contains(id) {
        text.push_str("..")?;
        return Ok(());
    }
    let (x, operation, y) = match *pool.node(id) {
        SymbolicExpr::Leaf(leaf) => return leaf.show(pool.base(), depth, inside, text),
        SymbolicExpr::Neg { x, .. } => {
            text.push_str("-")?;
            return show_expression(pool, x, depth - 1, true, text);
        }
        SymbolicExpr::Add { x, y, .. } => (x, " + ", y),
        SymbolicExpr::Sub { x, y, .. } => (x, " - ", y),
        SymbolicExpr::Mul { x, y, .. } => (x, " * ", y),
    };
    text.push_str(if inside { "(" } else { "" })?;
    show_expression(pool, x, depth - 1, true, text)?;
    text.push_str(operation)?;
    show_expression(pool, y, depth - 1, true, text)?;
    text.push_str(if inside { ")" } else { "" })?;
    Ok(())
}

// Adds expressions with the degrees that their nodes state, or `none`.
fn show_expressions<A: ShownLeaf>(
    pool: &ExprPool<A>,
    numbers: &[ExprId<A>],
    text: &mut String,
) -> Result<(), Fault>
    requires { FitsBase A.reads pool.now }
{
    for (place, number) in numbers.iter().enumerate() {
        text.push_str(if place == 0 { "" } else { "; " })?;
        show_expression(pool, *number, DEPTH, false, text)?;
        if pool.contains(*number) {
            let degree = pool.degree_multiple(*number);
            write!(text, ", degree {degree}")?;
        }
    }
    text.push_str(if numbers.is_empty() { "none" } else { "" })?;
    Ok(())
}

/// Adds a base expression to this depth.
pub fn show_base_expression<F: Number>(
    pool: &ExprPool<BaseLeaf<F>>,
    id: ExprId<BaseLeaf<F>>,
    depth: usize,
    text: &mut String,
) -> Result<(), Fault> {
    show_expression(pool, id, depth, false, text)
}

/// Adds base expressions with their degrees. (That their leaves are pool leaves with a text is slow to prove, so this
/// is a function of its own.)
pub fn show_base_expressions<F: Number>(
    pool: &ExprPool<BaseLeaf<F>>,
    numbers: &[ExprId<BaseLeaf<F>>],
    text: &mut String,
) -> Result<(), Fault> {
    show_expressions(pool, numbers, text)
}

/// Adds expressions over the extension with their degrees.
pub fn show_ext_expressions<F: Number, EF: ExtensionField<F>>(
    pool: &ExprPool<ExtLeaf<F, EF>>,
    numbers: &[ExprId<ExtLeaf<F, EF>>],
    text: &mut String,
) -> Result<(), Fault>
    requires { FitsBase ⟦<ExtLeaf<F, EF> as SymLeaf>⟧.reads pool.now }
{
    show_expressions(pool, numbers, text)
}
