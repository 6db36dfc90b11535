//! Which simplification fits, by the operands' constants.
ghost use Rattle.std.specs.Prelude.{◌≡◌};
ghost use Rattle.air_symbolic.specs.Simplification.{simplified_sum, simplified_difference, simplified_product};

use air_field::Field;

/// The answer of a simplified operation, in place of a node: a constant, an operand, or the negated right operand.
#[derive(Clone, Copy)]
pub enum Simplified<F> {
    Constant(F),
    Left,
    Right,
    Negated,
}

/// What a sum simplifies to, if anything.
pub fn simplify_sum<F: Field>(left: Option<F>, right: Option<F>) -> Option<Simplified<F>>
    ensures { result ≡ simplified_sum F.ring F.eq left right }
{
    match (left, right) {
        (Some(a), Some(b)) => Some(Simplified::Constant(a.add(b))),
        (Some(a), None) if a == F::ZERO => Some(Simplified::Right),
        (None, Some(b)) if b == F::ZERO => Some(Simplified::Left),
        _ => None,
    }
}

/// What a difference simplifies to, if anything.
pub fn simplify_difference<F: Field>(left: Option<F>, right: Option<F>) -> Option<Simplified<F>>
    ensures { result ≡ simplified_difference F.ring F.eq left right }
{
    match (left, right) {
        (Some(a), Some(b)) => Some(Simplified::Constant(a.sub(b))),
        (Some(a), None) if a == F::ZERO => Some(Simplified::Negated),
        (None, Some(b)) if b == F::ZERO => Some(Simplified::Left),
        _ => None,
    }
}

/// What a product simplifies to, if anything.
pub fn simplify_product<F: Field>(left: Option<F>, right: Option<F>) -> Option<Simplified<F>>
    ensures { result ≡ simplified_product F.ring F.eq left right }
{
    match (left, right) {
        (Some(a), Some(b)) => Some(Simplified::Constant(a.mul(b))),
        (Some(a), None) if a == F::ZERO => Some(Simplified::Constant(F::ZERO)),
        (None, Some(b)) if b == F::ZERO => Some(Simplified::Constant(F::ZERO)),
        (Some(a), None) if a == F::ONE => Some(Simplified::Right),
        (None, Some(b)) if b == F::ONE => Some(Simplified::Left),
        _ => None,
    }
}
