//! An AIR with periodic columns, for checks, and one with permutation columns, for recordings.
ghost use Rattle.std.specs.Prelude.{◌≡◌, [], None};
ghost use Rattle.air_builder.specs.Notation.{current, ext_is_zero, is_zero, periodic, ◌⊙◌};
ghost use Rattle.air_bench.specs.More.{cycles, lookups, lookup_term};

use crate::checks::count_checked;
use crate::recordings::record_rounds_ext;
use crate::traces::constant_trace;
use air_audit::author::{
    All, Challenge, Condition, Constraint, Current, Difference, ExtZero, Family, Periodic,
    PermutationCurrent, PermutationNext, Plain, PlainAir, PlainConstraints, Product, Sum, Zero,
    assert_all,
};
use air_audit::{
    Air, AirBuilder, AirError, AirLayout, BaseAir, BoundaryPublic, ExtensionField, Field, FromVar,
    PermutationAirBuilder, RowMajorMatrix,
};
use std::alloc::Global;

/// The product of each of eight columns with its periodic column is zero.
#[derive(Drop)]
pub struct Cycles<F> {
    columns: Vec<Vec<F>>,
}

#[derive(Clone, Copy, Drop)]
struct Products {}

impl<AB: AirBuilder> Family<AB> for Products {
    ghost size = { λ _. 8 };

    ghost asserts_at = { λ _ i f _. is_zero (f (periodic i ⊙ current i)) };

    fn size(&self) -> usize {
        8
    }

    fn assert_at<K: Condition<AB>>(
        &self,
        index: usize,
        builder: &mut AB,
        condition: &K,
    ) -> Result<(), AirError> {
        Zero(Product(Periodic(index), Current(index))).assert_under(builder, condition)
    }
}

impl<F: Field> BaseAir<F> for Cycles<F> {
    ghost declaration = { λ a. record {
      constraints = cycles;
      width = 8;
      num_public_values = 0;
      preprocessed = None;
      periodic = a.columns.items;
      cells = [];
    } };

    fn width(&self) -> usize {
        8
    }

    fn num_public_values(&self) -> usize {
        0
    }

    fn preprocessed_trace(&self) -> Option<&RowMajorMatrix<F>> {
        None
    }

    fn periodic_columns(&self) -> &[Vec<F>] {
        &self.columns
    }

    fn public_boundary_io(&self) -> &[BoundaryPublic] {
        &[]
    }
}

impl<AB: AirBuilder> Air<AB> for Cycles<AB::F> {
    fn eval(&self, builder: &mut AB) -> Result<(), AirError> {
        assert_all(builder, &All(Products {}))
    }
}

/// For each of 32 permutation columns: the next value is the product of the main column with the sum of the current
/// value and a challenge.
#[derive(Clone, Copy, Drop)]
pub struct Lookups {
    count: usize,
}

#[derive(Clone, Copy, Drop)]
struct Steps {
    count: usize,
}

impl<AB: PermutationAirBuilder> Family<AB> for Steps
where
    AB::ExtRing: FromVar<AB::F, AB::RandomVar> + FromVar<AB::F, AB::PermutationVar>,
{
    ghost size = { λ s. s.count };

    ghost asserts_at = { λ _ i _ g. ext_is_zero (g (lookup_term i)) };

    fn size(&self) -> usize {
        self.count
    }

    fn assert_at<K: Condition<AB>>(
        &self,
        index: usize,
        builder: &mut AB,
        condition: &K,
    ) -> Result<(), AirError> {
        let shifted = Sum(PermutationCurrent(index), Challenge(0));
        let product = Product(shifted, Current(index));
        ExtZero(Difference(product, PermutationNext(index))).assert_under(builder, condition)
    }
}

impl<F: Field> PlainAir<F> for Lookups {
    ghost plain = { λ s. (lookups s.count, 32, 0) };

    fn width_and_public_values(&self) -> (usize, usize) {
        (32, 0)
    }
}

impl<AB: PermutationAirBuilder> PlainConstraints<AB> for Lookups
where
    AB::ExtRing: FromVar<AB::F, AB::RandomVar> + FromVar<AB::F, AB::PermutationVar>,
{
    fn eval(&self, builder: &mut AB) -> Result<(), AirError> {
        assert_all(builder, &All(Steps { count: self.count }))
    }
}

// The AIR, with periodic columns of eight zeros.
fn cycles_of_zeros<F: Field>(alloc: Global) -> Result<Cycles<F>, AirError> {
    let mut columns = Vec::new(alloc);
    for _ in 0..8 {
        let column = vec![in alloc; F::ZERO; 8]?;
        columns.push(column)?;
    }
    Ok(Cycles { columns })
}

// Checks the AIR on a trace, and counts as `count_checked`.
fn check_trace<F: Field + 'static>(
    alloc: Global,
    main: &RowMajorMatrix<F>,
    rounds: usize,
) -> Result<usize, AirError> {
    let air = cycles_of_zeros::<F>(alloc)?;
    count_checked(alloc, &air, main, &[], rounds)
}

/// Checks the AIR with periodic columns, and counts as `count_checked`.
pub fn check_cycles<F: Field + 'static>(
    alloc: Global,
    rounds: usize,
    rows: usize,
) -> Result<usize, AirError> {
    let main = constant_trace(alloc, F::ONE, 8, rows)?;
    check_trace(alloc, &main, rounds)
}

/// The number of constraints, all of them over the extension, summed over `rounds` recordings.
pub fn record_lookups<F: Field, EF: ExtensionField<F>>(
    alloc: Global,
    rounds: usize,
) -> Result<usize, AirError> {
    let air = Plain(Lookups { count: 32 });
    let layout = AirLayout {
        main_width: 32,
        permutation_width: 32,
        num_permutation_challenges: 1,
        ..AirLayout::default()
    };
    record_rounds_ext::<F, EF, Plain<Lookups>>(alloc, &air, layout, rounds)
}
