//! Powers of an expression.
ghost use Rattle.std.specs.Prelude.{suc, IfOk, IfErr};
ghost use Rattle.air_field.specs.Algebra.{MadeOf, RefusedOf};
ghost use Rattle.air_author.specs.Expressions.{power_term};

use crate::AirResult;
use crate::expressions::constants::One;
use crate::expressions::{Expression, to_air_result};
use air_builder::AirBuilder;
use air_field::{Algebra, Field, RingError};

/// x multiplied by x `more` times, from the left
pub(crate) fn multiply_by_itself<F: Field, R: Algebra<F>>(
    ring: &mut R,
    x: R::Elem,
    more: usize,
) -> Result<R::Elem, RingError>
    requires { R.has ring.old x }
    ensures extended { R.extends ring.old ring.new }
    ensures made { IfOk result (MadeOf R.has R.means
        (λ t. power_term F.ring.one t (suc more)) ring.old ring.new x) }
    ensures refused { IfErr result (RefusedOf R.means R.refuses
        (λ t. power_term F.ring.one t (suc more)) ring.old x) }
{
    let mut total = x;
    for done in 0..more {
        total = ring.mul(total, x)?;
    }
    Ok(total)
}

/// The power of an expression: the product from the left; one for exponent 0.
#[derive(Clone, Copy, Drop)]
pub struct Power<X>(pub X, pub usize);

impl<AB: AirBuilder, X: Expression<AB>> Expression<AB> for Power<X> {
    ghost term = { λ s. power_term AB.F.ring.one (X.term s.0) s.1 };

    ghost usable = { λ s b. X.usable s.0 b };

    #[inline(always)]
    fn make(&self, builder: &mut AB) -> AirResult<AB::Expr> {
        if self.1 == 0 {
            return One.make(builder);
        }
        let x = self.0.make(builder)?;
        to_air_result(multiply_by_itself(builder.ring(), x, self.1 - 1))
    }
}
