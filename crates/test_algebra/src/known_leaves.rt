//! The leaves of the constants that every pool knows.
ghost use Rattle.std.specs.Prelude.{◌≡◌, IfOk};

use crate::shown::{Shown, show_constant};
use air_field::{Field, RingError};
use air_symbolic::SymLeaf;
use std::alloc::Global;
use test_lines::Fault;
use test_lines::words::number_of;

// The leaf of a constant with a name.
fn named_leaf<A: SymLeaf>(word: &str, base: &mut A::Base) -> Result<A, RingError>
    requires { (A.reads base.old).sound }
    ensures sound { (A.reads base.new).sound }
    ensures valid { IfOk result (λ a. (A.reads base.new).valid a) }
{
    match word {
        "zero" => A::zero(base),
        "one" => A::one(base),
        "two" => A::two(base),
        _ => A::neg_one(base),
    }
}

// The leaf of a number.
fn leaf_of_number<A: SymLeaf>(word: &str, base: &mut A::Base) -> Result<A, Fault>
    requires { (A.reads base.old).sound }
    ensures sound { (A.reads base.new).sound }
    ensures valid { IfOk result (λ a. (A.reads base.new).valid a) }
{
    let c = A::F::from_u64(number_of(word)?);
    Ok(A::from_const(c, base)?)
}

// The leaf of a constant, given by its name or as a number.
fn leaf_of<A: SymLeaf>(word: &str, base: &mut A::Base) -> Result<A, Fault>
    requires { (A.reads base.old).sound }
    ensures sound { (A.reads base.new).sound }
    ensures valid { IfOk result (λ a. (A.reads base.new).valid a) }
{
    match word {
        "zero" | "one" | "two" | "neg_one" => Ok(named_leaf(word, base)?),
        _ => leaf_of_number(word, base),
    }
}

// Adds the constant of a leaf, its degree when the transition selector weighs 3, and its degree over eight rows.
fn show_leaf<A: Shown>(leaf: &A, base: &A::Base, text: &mut String) -> Result<(), Fault>
    requires sound { (A.reads base.now).sound }
    requires valid { (A.reads base.now).valid leaf.now }
{
    show_constant::<A>(leaf.as_const(base), text)?;
    let weighted = leaf.degree_multiple_with_transition(3, base)?;
    let over_rows = leaf.poly_degree(8, &[], base)?;
    write!(text, ", degrees {weighted} {over_rows}")?;
    Ok(())
}

/// Adds the constant of the word's leaf, and its degrees.
pub fn show_known<A: Shown>(alloc: Global, word: &str, text: &mut String) -> Result<(), Fault> {
    let mut base = A::new_base(alloc);
    let leaf: A = leaf_of(word, &mut base)?;
    show_leaf(&leaf, &base, text)
}
