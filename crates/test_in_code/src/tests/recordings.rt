//! Recordings and folds of assertions under names that record whether they are read: they never are. The assertions are
//! in functions over any builder, and the builders are made over any fields, since each call at concrete fields is slow
//! to prove.
use crate::tests::labels::{zero_asking, zero_ext_asking};
use crate::tests::rows::{Element, root_times};
use air_audit::{
    AirBuilder, AirError, AirLayout, Algebra, BabyBear, ExtAlgebra, ExtensionBuilder,
    ExtensionField, Field, NamedAirBuilder, NamedExtensionBuilder, RowMajorMatrixView,
    SymbolicAirBuilder, ViewPair,
};
use air_folder::ConstraintFolder;
use std::alloc::Global;
use std::cell::Cell;
use std::test::Fail;

// Asserts under a name that an element of the extension is zero. Afterwards the builder is ready.
fn constant_asking<AB: NamedExtensionBuilder>(
    builder: &mut AB,
    x: AB::EF,
    asked: &Cell<u32>,
) -> Result<(), AirError>
    requires { AB.ready builder.old }
    ensures { AB.ready builder.new }
{
    let x = builder.ext_ring().ext_constant(x)?;
    zero_ext_asking(builder, x, asked)
}

// Asserts under a name that the first row's selector is zero.
fn first_row_asking<AB: NamedAirBuilder>(
    builder: &mut AB,
    asked: &Cell<u32>,
) -> Result<(), AirError>
    requires { AB.ready builder.old }
{
    let x = builder.is_first_row()?;
    zero_asking(builder, x, asked)
}

// Makes both assertions.
fn both_asking<AB: NamedExtensionBuilder>(
    builder: &mut AB,
    x: AB::EF,
    asked: &Cell<u32>,
) -> Result<(), AirError>
    requires { AB.ready builder.old }
{
    constant_asking(builder, x, asked)?;
    first_row_asking(builder, asked)
}

// The numbers of base and extension constraints recorded for both.
fn recorded_asking<F: Field, EF: ExtensionField<F>>(
    alloc: Global,
    asked: &Cell<u32>,
) -> Result<(usize, usize), AirError> {
    let mut builder: SymbolicAirBuilder<F, EF> = SymbolicAirBuilder::new(
        alloc,
        AirLayout::default(),
    )?;
    both_asking(&mut builder, EF::one(), asked)?;
    Ok((
        builder.base_constraints().len(),
        builder.extension_constraints().len(),
    ))
}

#[test]
fn a_recording_asks_for_no_label(rt: HostRuntime) -> Result<(), Fail> {
    let asked = Cell::new(0u32);
    let counts = recorded_asking::<BabyBear, Element>(rt.alloc(), &asked)?;
    assert_eq!(rt; counts, (1, 1));
    assert_eq!(rt; asked.get(), 0);
    Ok(())
}

// Asserts under a condition that `x` is zero.
fn assert_under<AB: AirBuilder>(
    builder: &mut AB,
    condition: AB::Expr,
    x: AB::Expr,
) -> Result<(), AirError>
    requires ready { AB.ready builder.old }
    requires condition_in { AB.Ring.has (AB.ring_of builder.old) condition }
    requires x_in { AB.Ring.has (AB.ring_of builder.old) x }
{
    let mut filter = builder.when(condition)?;
    filter.assert_zero(x)
}

// Asserts over the extension, under a condition, that `x` is zero.
fn assert_ext_under<AB: ExtensionBuilder>(
    builder: &mut AB,
    condition: AB::Expr,
    x: AB::ExprEF,
) -> Result<(), AirError>
    requires ready { AB.ready builder.old }
    requires condition_in { AB.Ring.has (AB.ring_of builder.old) condition }
    requires x_in { AB.ExtRing.has (AB.ext_ring_of builder.old) x }
{
    let mut filter = builder.when(condition)?;
    filter.assert_zero_ext(x)
}

// Asserts under names that an element and one of the extension are zero.
fn two_asking<AB: NamedExtensionBuilder>(
    builder: &mut AB,
    x: AB::Expr,
    y: AB::ExprEF,
    asked: &Cell<u32>,
) -> Result<(), AirError>
    requires ready { (b : AB) → AB.ready b }
    requires of_ring { (r : AB.Ring) (e : AB.Expr) → AB.Ring.has r e }
    requires of_ext_ring { (r : AB.ExtRing) (e : AB.ExprEF) → AB.ExtRing.has r e }
{
    zero_asking(builder, x, asked)?;
    zero_ext_asking(builder, y, asked)
}

// Asserts under conditions that an element and one of the extension are zero.
fn two_under<AB: ExtensionBuilder>(
    builder: &mut AB,
    condition: AB::Expr,
    x: AB::Expr,
    ext_condition: AB::Expr,
    y: AB::ExprEF,
) -> Result<(), AirError>
    requires ready { (b : AB) → AB.ready b }
    requires of_ring { (r : AB.Ring) (e : AB.Expr) → AB.Ring.has r e }
    requires of_ext_ring { (r : AB.ExtRing) (e : AB.ExprEF) → AB.ExtRing.has r e }
{
    assert_under(builder, condition, x)?;
    assert_ext_under(builder, ext_condition, y)
}

// All four assertions: each kind under a name, and under a condition. (One call names the folder's type for all four.)
fn four_asking<AB: NamedExtensionBuilder>(
    builder: &mut AB,
    named: (AB::Expr, AB::ExprEF),
    conditions: (AB::Expr, AB::Expr),
    under: (AB::Expr, AB::ExprEF),
    asked: &Cell<u32>,
) -> Result<(), AirError>
    requires ready { (b : AB) → AB.ready b }
    requires of_ring { (r : AB.Ring) (e : AB.Expr) → AB.Ring.has r e }
    requires of_ext_ring { (r : AB.ExtRing) (e : AB.ExprEF) → AB.ExtRing.has r e }
{
    two_asking(builder, named.0, named.1, asked)?;
    two_under(builder, conditions.0, under.0, conditions.1, under.1)
}

type Folder<'a, F, EF> = ConstraintFolder<'a, F, EF>;

// The image of a number.
fn element<F: Field, EF: ExtensionField<F>>(n: u64) -> EF {
    EF::from_base(F::from_u64(n))
}

// A folder at a row without columns.
fn folder_by<'a, F: Field, EF: ExtensionField<F>>(alpha: EF) -> Folder<'a, F, EF> {
    let none = RowMajorMatrixView::new_row(&[]);
    let rows = ViewPair::new(none, none);
    let (zero, one) = (EF::zero(), EF::one());
    ConstraintFolder::new(rows, rows, None, &[], &[], &[], &[], zero, zero, one, alpha)
}

// The fold of 1, `x`, 12 and 30 by alpha 10; the last two are products with conditions.
fn fold_four<F: Field, EF: ExtensionField<F>>(x: EF, asked: &Cell<u32>) -> Result<EF, AirError> {
    let conditions = (element::<F, EF>(3), element::<F, EF>(5));
    let under = (element::<F, EF>(4), element::<F, EF>(6));
    let mut folder: Folder<'_, F, EF> = folder_by(element::<F, EF>(10));
    four_asking(&mut folder, (EF::one(), x), conditions, under, asked)?;
    Ok(folder.accumulator())
}

// Folds 1, 2X, 12 and 30 by alpha 10 to 1000 + 200X + 120 + 30. No name is read.
#[test]
fn each_assertion_is_folded(rt: HostRuntime) -> Result<(), Fail> {
    let asked = Cell::new(0);
    let sum = fold_four::<BabyBear, Element>(root_times(2), &asked)?;
    assert_eq!(rt; asked.get(), 0);
    let wanted = Element::from_basis_coefficients(&[1150, 200, 0, 0].map(BabyBear::new));
    assert_eq!(rt; sum, wanted);
    Ok(())
}
