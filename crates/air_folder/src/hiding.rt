//! The number of elements that hide values by folding them to zero.
ghost use Rattle.std.specs.Prelude.{◌≡◌, ◌<◌, length, count_by};
ghost use Rattle.air_field.specs.Ring.{AllZero};
ghost use Rattle.air_recording.specs.Folds.{sum_by_powers};
ghost use Rattle.air_folder.specs.Hiding.{folds_to_zero, IsIncreasing};

use air_audit::{DomainExtension, ExtensionField, Field};

/// Horner's fold of the values.
fn fold<F: Field, EF: ExtensionField<F>>(values: &[EF], alpha: EF) -> EF
    ensures { result ≡ sum_by_powers EF.over.ring alpha values.now }
{
    let mut accumulator = EF::zero();
    for value in values {
        accumulator = accumulator.mul(alpha).add(*value);
    }
    accumulator
}

/// The number of the alphas, which must be strictly increasing, that fold the values to zero: fewer than there are
/// values, if one of the values isn't zero. It takes no memory. Provers draw alpha from an extension that is a field;
/// over a prime field, which is its own extension, alphas and values are its elements.
pub fn hiding_alphas<F: Field, EF: DomainExtension<F>>(values: &[EF], alphas: &[EF]) -> usize
    requires { IsIncreasing EF.cmp alphas.now }
    ensures count { result ≡ count_by (folds_to_zero EF.over.ring EF.eq values.now) alphas.now }
    ensures fewer { (AllZero EF.over.ring values.now → ⊥) → result < length values.now }
{
    alphas
        .iter()
        .filter(|alpha| fold(values, **alpha) == EF::zero())
        .count()
}
