//! The named lists of constraints, one type for each set of builder traits that they need.
ghost use Rattle.std.specs.Prelude.{List};
ghost use Rattle.air_builder.specs.Assertion.{Assertion};

use air_audit::Field;
use std::alloc::AllocError;

/// A kind of constraints.
pub trait Declared<F> {
    /// The assertions of this kind. The argument is the list that the expressions of lines assert.
    ghost declared: { Self → List (Assertion F) → List (Assertion F) };
}

/// Constraints over the base field only.
pub enum BaseList {
    /// The expressions of the lines are zero.
    Lines,
    /// The Fibonacci constraints, without labels.
    Fibonacci,
    /// The Fibonacci constraints, with labels.
    FibonacciNamed,
    /// Column 0, raised to this power eight times in a row, is zero.
    Steep(usize),
    /// Column 1 of the next row is the sum of this row's columns 0 and 1, by a gadget that receives the sum.
    Handed,
    /// Columns x, y and z: where y and z differ, x is a bit and equals y. This one calls the builder directly.
    Differing,
}

// A derived clone goes through the cases, which is slow to prove.
impl Clone for BaseList {
    fn clone(&self) -> Result<Self, AllocError> {
        Ok(*self)
    }
}

impl Copy for BaseList {}

impl<F: Field> Declared<F> for BaseList {
    ghost use Rattle.example_fibonacci.specs.Fibonacci.{fibonacci};
    ghost use Rattle.test_airs.specs.declared.lists.BaseList.TheVariants.{Lines, Fibonacci, FibonacciNamed, Steep, Handed, Differing};
    ghost use Rattle.test_airs.specs.Differing.{differing_asserts};
    ghost use Rattle.test_airs.specs.Handed.{handed_asserts};
    ghost use Rattle.test_airs.specs.TableAirs.{steep};

    ghost declared = { λ list lines. elim list [
      | Lines ↦ lines
      | Fibonacci ↦ fibonacci
      | FibonacciNamed ↦ fibonacci
      | Steep n ↦ steep F.ring.one n
      | Handed ↦ handed_asserts
      | Differing ↦ differing_asserts F.ONE
    ] };
}

/// Constraints with permutation data.
pub enum PermutationList {
    /// Permutation 0 times challenge 0 is permutation value 0.
    Permuted,
    /// Column 0 is zero; the constraint of `Permuted`; column 1 is zero.
    Mixed,
}

impl Clone for PermutationList {
    fn clone(&self) -> Result<Self, AllocError> {
        Ok(*self)
    }
}

impl Copy for PermutationList {}

impl<F> Declared<F> for PermutationList {
    ghost use Rattle.test_airs.specs.declared.lists.PermutationList.TheVariants.{Permuted, Mixed};
    ghost use Rattle.test_airs.specs.TableAirs.{permuted_asserts, mixed_asserts};

    ghost declared = { λ list _. elim list [
      | Permuted ↦ permuted_asserts
      | Mixed ↦ mixed_asserts
    ] };
}

/// Column 0 is zero, labelled `base`; column 1 is zero over the extension, labelled `lifted`; then column 0 is zero
/// over the extension, without a label.
#[derive(Clone, Copy)]
pub struct LabelledList;

impl<F> Declared<F> for LabelledList {
    ghost use Rattle.test_airs.specs.TableAirs.{labelled_asserts};

    ghost declared = { λ _ _. labelled_asserts };
}

/// A list of any kind.
pub enum Constraints {
    Base(BaseList),
    Permutation(PermutationList),
    Labelled,
}

impl Clone for Constraints {
    fn clone(&self) -> Result<Self, AllocError> {
        Ok(*self)
    }
}

impl Copy for Constraints {}
