//! Expressions numbered by an index, packed into one.
ghost use Rattle.std.specs.Prelude.{◌≡◌, ℕ, ◌<◌, IfOk, IfErr};
ghost use Rattle.air_field.specs.Algebra.{MadeOfBoth, RefusedOfBoth};
ghost use Rattle.air_field.specs.Term.{Term};
ghost use Rattle.air_gadgets.specs.Packing.{packed_from, packed_term};
ghost use Rattle.air_author.specs.Expressions.{MakesIn};
ghost use Rattle.air_gadgets.specs.BitTerms.{twice_and_term, terms_from, first_terms};

use air_author::{AirResult, Constant, Expression, to_air_result};
use air_builder::{AirBuilder, View};
use air_field::{Algebra, Field, RingError};

/// Expressions numbered by an index.
pub trait Series<AB: AirBuilder> {
    /// The number of expressions.
    ghost count: { Self → ℕ };

    /// The term of the expression at an index.
    ghost term_at: { Self → ℕ → Term AB.F };

    /// The number of expressions.
    fn count(&self) -> usize
        ensures { result ≡ count self.now };

    /// Makes the expression at the index.
    fn make_at(&self, index: usize, builder: &mut AB) -> AirResult<AB::Expr>
        requires ready { AB.ready builder.old }
        requires within { index < count self.now }
        ensures { MakesIn ⟦<AB as View>⟧.view builder.old builder.new result
            (term_at self.now index) };
}

/// 2x + y
#[inline(always)]
fn twice_and<F: Field, R: Algebra<F>>(
    ring: &mut R,
    x: R::Elem,
    y: R::Elem,
) -> Result<R::Elem, RingError>
    requires x_in { R.has ring.old x }
    requires y_in { R.has ring.old y }
    ensures extended { R.extends ring.old ring.new }
    ensures made { IfOk result (MadeOfBoth R.has R.means twice_and_term ring.old ring.new x y) }
    ensures refused { IfErr result (RefusedOfBoth R.means R.refuses twice_and_term ring.old x y) }
{
    let twice = ring.double(x)?;
    ring.add(twice, y)
}

/// The sum of 2^i x_i over the expressions up to index `last`, from the last one down.
fn make_packed<AB: AirBuilder, S: Series<AB>>(
    builder: &mut AB,
    series: &S,
    last: usize,
) -> AirResult<AB::Expr>
    requires ready { AB.ready builder.old }
    requires within { last < S.count series.now }
    ensures { MakesIn ⟦<AB as View>⟧.view builder.old builder.new result
        (packed_from (S.term_at series.now 0) (terms_from (S.term_at series.now) 1 last)) }
{
    let mut sum = series.make_at(last, builder)?;
    let mut index = last;
    while index > 0 {
        index -= 1;
        let bit = series.make_at(index, builder)?;
        sum = to_air_result(twice_and(builder.ring(), sum, bit))?;
    }
    Ok(sum)
}

/// The sum of 2^i x_i; zero for an empty series.
#[derive(Clone, Copy, Drop)]
pub struct Packed<S>(pub S);

impl<AB: AirBuilder, S: Series<AB>> Expression<AB> for Packed<S> {
    ghost term = { λ s. packed_term AB.F.ring.zero (first_terms (S.term_at s.0) (S.count s.0)) };

    fn make(&self, builder: &mut AB) -> AirResult<AB::Expr> {
        let count = self.0.count();
        if count == 0 {
            return Constant(AB::F::ZERO).make(builder);
        }
        make_packed(builder, &self.0, count - 1)
    }
}
