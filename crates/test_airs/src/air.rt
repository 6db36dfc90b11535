//! The AIRs of tables: a list of constraints, and the other parts of an AIR.
ghost use Rattle.test_airs.specs.declared.lists.Constraints.TheVariants.{Base, Permutation, Labelled};
ghost use Rattle.test_airs.specs.TableAirs.{labelled_asserts};
ghost use Rattle.air_builder.specs.Declaration.{declaration_of};
ghost use Rattle.air_audit.specs.FlatAirs.{zero_at_roots};

use crate::differing::assert_differing;
use crate::handed::assert_handed;
use crate::lists::{BaseList, Constraints, Declared, LabelledList, PermutationList};
use air_audit::author::{
    Challenge, Current, Difference, ExtNamed, ExtZero, Lifted, Named, PermutationCurrent,
    PermutationValue, Power, Product, Zero, assert_all,
};
use air_audit::{
    Air, AirError, BaseAir, BoundaryPublic, Field, FlatAir, FromVar, NamedAirBuilder,
    NamedExtensionBuilder, PermutationAirBuilder, RowMajorMatrix,
};
use example_fibonacci::Fibonacci;

/// An AIR of a table.
#[derive(Drop)]
pub struct TableAir<F: Field> {
    pub constraints: Constraints,
    /// The expressions of the lines, and what the AIR has beside its constraints, which applies to every list of them.
    pub flat: FlatAir<F>,
}

impl<F: Field> BaseAir<F> for TableAir<F> {
    ghost declaration = { λ a. declaration_of (elim a.constraints [
      | Base list ↦ ⟦<BaseList as Declared<F>>⟧.declared list
          (zero_at_roots a.flat.pool a.flat.roots.items)
      | Permutation list ↦ ⟦<PermutationList as Declared<F>>⟧.declared list
          (zero_at_roots a.flat.pool a.flat.roots.items)
      | Labelled ↦ labelled_asserts
    ]) a.flat.beside };

    fn width(&self) -> usize {
        self.flat.beside.width
    }

    fn num_public_values(&self) -> usize {
        self.flat.beside.num_public_values
    }

    fn preprocessed_trace(&self) -> Option<&RowMajorMatrix<F>> {
        self.flat.beside.preprocessed.as_ref()
    }

    fn periodic_columns(&self) -> &[Vec<F>] {
        self.flat.beside.periodic.as_slice()
    }

    fn public_boundary_io(&self) -> &[BoundaryPublic] {
        self.flat.beside.cells.as_slice()
    }
}

/// The AIR of one kind of list. Each kind needs only one builder trait.
#[derive(Drop)]
pub struct ListAir<'a, F: Field, C> {
    pub list: C,
    pub air: &'a TableAir<F>,
}

impl<'a, F: Field, C: Declared<F>> BaseAir<F> for ListAir<'a, F, C> {
    ghost declaration = { λ a. declaration_of
        (C.declared a.list (zero_at_roots a.air.now.flat.pool a.air.now.flat.roots.items))
        a.air.now.flat.beside };

    fn width(&self) -> usize {
        self.air.flat.beside.width
    }

    fn num_public_values(&self) -> usize {
        self.air.flat.beside.num_public_values
    }

    fn preprocessed_trace(&self) -> Option<&RowMajorMatrix<F>> {
        self.air.flat.beside.preprocessed.as_ref()
    }

    fn periodic_columns(&self) -> &[Vec<F>] {
        self.air.flat.beside.periodic.as_slice()
    }

    fn public_boundary_io(&self) -> &[BoundaryPublic] {
        self.air.flat.beside.cells.as_slice()
    }
}

impl<'a, AB: NamedAirBuilder> Air<AB> for ListAir<'a, AB::F, BaseList> {
    fn eval(&self, builder: &mut AB) -> Result<(), AirError> {
        match self.list {
            BaseList::Lines => self.air.flat.eval(builder),
            BaseList::Fibonacci => Fibonacci::new().eval(builder),
            BaseList::FibonacciNamed => Fibonacci::with_labels().eval(builder),
            BaseList::Steep(n) => {
                let four = Power(Power(Power(Power(Current(0), n), n), n), n);
                let eight = Power(Power(Power(Power(four, n), n), n), n);
                assert_all(builder, &Zero(eight))
            }
            BaseList::Handed => assert_handed(builder),
            BaseList::Differing => assert_differing(builder),
        }
    }
}

impl<'a, AB: PermutationAirBuilder> Air<AB> for ListAir<'a, AB::F, PermutationList>
where
    AB::ExtRing: FromVar<AB::F, AB::RandomVar> + FromVar<AB::F, AB::PermutationVar>,
{
    fn eval(&self, builder: &mut AB) -> Result<(), AirError> {
        let product = Product(PermutationCurrent(0), Challenge(0));
        let permuted = ExtZero(Difference(product, PermutationValue(0)));
        match self.list {
            PermutationList::Permuted => assert_all(builder, &permuted),
            PermutationList::Mixed => {
                assert_all(builder, &(Zero(Current(0)), permuted, Zero(Current(1))))
            }
        }
    }
}

impl<'a, AB: NamedExtensionBuilder> Air<AB> for ListAir<'a, AB::F, LabelledList> {
    fn eval(&self, builder: &mut AB) -> Result<(), AirError> {
        let base = Named("base", Zero(Current(0)));
        let lifted = ExtNamed("lifted", ExtZero(Lifted(Current(1))));
        let empty = ExtNamed("", ExtZero(Lifted(Current(0))));
        assert_all(builder, &(base, lifted, empty))
    }
}

impl<AB: PermutationAirBuilder + NamedExtensionBuilder> Air<AB> for TableAir<AB::F>
where
    AB::ExtRing: FromVar<AB::F, AB::RandomVar> + FromVar<AB::F, AB::PermutationVar>,
{
    fn eval(&self, builder: &mut AB) -> Result<(), AirError> {
        match self.constraints {
            Constraints::Base(list) => ListAir { list, air: self }.eval(builder),
            Constraints::Permutation(list) => ListAir { list, air: self }.eval(builder),
            Constraints::Labelled => ListAir {
                list: LabelledList,
                air: self,
            }
            .eval(builder),
        }
    }
}
