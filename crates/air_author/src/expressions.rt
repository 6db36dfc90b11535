//! Expressions as values; each has a small type of its own that knows its term.
ghost use Rattle.std.specs.Prelude.{◌≡◌, ⊤, Some, None, IfOk, IfErr, slice_get};
ghost use Rattle.air_field.specs.Term.{Term};
ghost use Rattle.air_author.specs.Expressions.{MakesIn, AlwaysAfter, air_result};

use crate::AirResult;
use air_builder::{AirBuilder, AirError, ExtensionBuilder, View, ViewOver};
use air_field::{Algebra, RingError};

pub mod already;
pub mod arithmetic;
pub mod columns;
pub mod constants;
pub mod extension;
mod lifted_leaves;
pub mod permutation;
pub mod power;
pub mod selectors;

/// An expression of base constraints.
pub trait Expression<AB: AirBuilder> {
    /// The term that the expression means.
    ghost term: { Self → Term AB.F };

    /// Every prebuilt expression inside was made by this builder and still has its value's term there.
    ghost usable: { Self → AB → Type 0 } = { λ _ _. ⊤ };

    /// Makes it in the builder's ring. Nothing is asserted.
    fn make(&self, builder: &mut AB) -> AirResult<AB::Expr>
        requires ready { AB.ready builder.old }
        requires usable { AlwaysAfter AB.kept (usable self.now) builder.old }
        ensures { MakesIn ⟦<AB as View>⟧.view builder.old builder.new result (term self.now) };
}

/// An expression of constraints over the extension.
pub trait ExtExpression<AB: ExtensionBuilder> {
    /// The term that the expression means.
    ghost ext_term: { Self → Term AB.F };

    /// Every prebuilt expression inside was made by this builder and still has its value's term there.
    ghost usable: { Self → AB → Type 0 } = { λ _ _. ⊤ };

    /// Makes it in the builder's ring over the extension. Nothing is asserted.
    fn make_ext(&self, builder: &mut AB) -> AirResult<AB::ExprEF>
        requires ready { AB.ready builder.old }
        requires usable { AlwaysAfter AB.kept (usable self.now) builder.old }
        ensures { MakesIn ⟦<AB as ViewOver>⟧.view builder.old builder.new result
            (ext_term self.now) };
}

impl<'a, AB: AirBuilder, X: Expression<AB>> Expression<AB> for &'a X {
    ghost term = { λ s. X.term s.now };

    ghost usable = { λ s b. X.usable s.now b };

    #[inline(always)]
    fn make(&self, builder: &mut AB) -> AirResult<AB::Expr> {
        (**self).make(builder)
    }
}

impl<'a, AB: ExtensionBuilder, X: ExtExpression<AB>> ExtExpression<AB> for &'a X {
    ghost ext_term = { λ s. X.ext_term s.now };

    ghost usable = { λ s b. X.usable s.now b };

    #[inline(always)]
    fn make_ext(&self, builder: &mut AB) -> AirResult<AB::ExprEF> {
        (**self).make_ext(builder)
    }
}

/// A ring's answer as its builder's: the error is converted.
#[inline(always)]
pub fn to_air_result<E: Copy>(answer: Result<E, RingError>) -> AirResult<E>
    ensures { result ≡ air_result answer }
{
    match answer {
        Ok(x) => Ok(x),
        Err(e) => Err(AirError::from(e)),
    }
}

/// The entry, or else the error that names it.
#[inline(always)]
pub(crate) fn entry_or<T: Copy>(found: Option<T>, missing: AirError) -> AirResult<T>
    ensures ok { IfOk result (λ x. found ≡ Some x) }
    ensures err { IfErr result (λ e. (found ≡ None) × (e ≡ missing)) }
{
    match found {
        Some(x) => Ok(x),
        None => Err(missing),
    }
}

/// The element at this index, if there is one.
#[inline(always)]
pub(crate) fn element<T: Copy>(row: &[T], index: usize) -> Option<T>
    ensures { result ≡ slice_get row.now index }
{
    row.get(index).copied()
}
