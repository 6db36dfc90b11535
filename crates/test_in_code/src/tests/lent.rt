//! What a builder at a row, or a filter on it, gives access to.
ghost use Rattle.std.specs.Prelude.{◌≡◌, IfOk};

use crate::tests::rows::{Element, Row, no_rows, root_times, row_with};
use air_audit::{
    AirBuilder, AirBuilderWithContext, AirError, Algebra, BabyBear, ExtensionBuilder,
    ExtensionField, Field, FilteredAirBuilder, FromVar, PermutationAirBuilder, RowMajorMatrixView,
    ViewPair, WindowAccess,
};
use std::alloc::Global;
use std::fmt::Debug;
use std::test::Fail;

// The context of a filter is its builder's context, by contract.
fn context_of_filter<C: Copy, AB: AirBuilderWithContext<EvalContext = C>>(
    builder: &mut AB,
    condition: AB::Expr,
) -> Result<C, AirError>
    ensures { IfOk result (λ c. c ≡ AB.context builder.old) }
{
    let filter = builder.when(condition)?;
    Ok(*filter.eval_context())
}

// The contexts of a builder and of a filter on it, as a text.
fn context_texts<C: Copy + Debug, AB: AirBuilderWithContext<EvalContext = C>>(
    alloc: Global,
    builder: &mut AB,
    condition: AB::Expr,
) -> Result<String, Fail> {
    let own = *builder.eval_context();
    let handed_on = context_of_filter(builder, condition)?;
    Ok(format!(in alloc; "{own:?} {handed_on:?}")?)
}

// The contexts of a builder at a row and of a filter on it.
fn context_texts_at_row<F: Field + 'static, EF: ExtensionField<F> + 'static>(
    alloc: Global,
    builder: &mut Row<'_, F, EF>,
) -> Result<String, Fail> {
    context_texts(alloc, builder, F::TWO)
}

// The contexts for a builder with these permutation data.
fn contexts_of_row<F: Field + 'static, EF: ExtensionField<F> + 'static>(
    alloc: Global,
    rows: ViewPair<'_, EF>,
) -> Result<String, Fail> {
    let mut builder: Row<'_, F, EF> = row_with(alloc, rows);
    context_texts_at_row(alloc, &mut builder)
}

#[test]
fn a_builder_at_a_row_and_a_filter_on_it_have_the_empty_context(
    rt: HostRuntime,
) -> Result<(), Fail> {
    let contexts = contexts_of_row::<BabyBear, Element>(rt.alloc(), no_rows())?;
    assert_eq!(rt; contexts.as_str(), "() ()");
    Ok(())
}

// A filter's permutation data: column 1 of the current row, and the variable of column 0 in the next row.
fn lent_by<AB: PermutationAirBuilder>(
    filter: &FilteredAirBuilder<'_, AB>,
) -> Result<(Option<AB::VarEF>, Option<AB::VarEF>), AirError>
where
    AB::ExtRing: FromVar<AB::F, AB::RandomVar> + FromVar<AB::F, AB::PermutationVar>,
{
    let current = filter.permutation()?.current(1);
    let next = filter.permutation_variable(1, 0)?;
    Ok((current, next))
}

// The permutation data that a filter on a builder gives.
fn lent_by_filter<AB: PermutationAirBuilder>(
    builder: &mut AB,
    condition: AB::Expr,
) -> Result<(Option<AB::VarEF>, Option<AB::VarEF>), AirError>
where
    AB::ExtRing: FromVar<AB::F, AB::RandomVar> + FromVar<AB::F, AB::PermutationVar>,
    requires ready { AB.ready builder.old }
    requires condition_in { AB.Ring.has (AB.ring_of builder.old) condition }
{
    let filter = builder.when(condition)?;
    lent_by(&filter)
}

// The permutation data that a filter at a row gives.
fn lent_at_row<F: Field + 'static, EF: ExtensionField<F> + 'static>(
    builder: &mut Row<'_, F, EF>,
) -> Result<(Option<EF>, Option<EF>), AirError> {
    lent_by_filter(builder, F::TWO)
}

// The result of `lent_at_row` for these permutation data.
fn lent_of_rows<F: Field + 'static, EF: ExtensionField<F> + 'static>(
    alloc: Global,
    rows: ViewPair<'_, EF>,
) -> Result<(Option<EF>, Option<EF>), AirError> {
    let mut builder: Row<'_, F, EF> = row_with(alloc, rows);
    lent_at_row(&mut builder)
}

#[test]
fn a_filter_hands_on_the_permutation_data(rt: HostRuntime) -> Result<(), Fail> {
    let current = [root_times(1), root_times(2)];
    let next = [root_times(3), root_times(4)];
    let rows = ViewPair::new(
        RowMajorMatrixView::new_row(&current),
        RowMajorMatrixView::new_row(&next),
    );
    let (here, after) = lent_of_rows::<BabyBear, Element>(rt.alloc(), rows)?;
    assert_eq!(rt; here, Some(root_times(2)));
    assert_eq!(rt; after, Some(root_times(3)));
    Ok(())
}
