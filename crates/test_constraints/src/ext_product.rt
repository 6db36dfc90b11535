//! A running product over the extension: written in code alone, beside the same constraints as an author's values, and
//! checked row by row.
use crate::ext_shown::{print_ext_shown, recorded_shown};
use p3_air::author::*;
use p3_air::{
    Air, AirLayout, BabyBear, BinomialExtensionField as Ext, ConstraintFailure,
    DebugConstraintBuilder, ExtConstraints, ExtExpressions, ExtensionField, FlatExtAir,
    Permutation, Recorded, RowMajorMatrix, RowMajorMatrixView, SymbolicAirBuilder, ViewPair,
    finish_recording, get_all_symbolic_constraints, record_these, trace_of_rows,
};
use std::alloc::Global;
use std::io;

type Product = FlatExtAir<BabyBear, Ext>;

/// Column 0 of the permutation trace is one on row 0, and each row multiplies it by the challenge plus its column 0.
/// Behind the last row it is what is exposed. A bit is claimed in between, of the base field.
fn running_product(alloc: Global) -> Result<Product, AirError> {
    let e = ExtExpressions::<BabyBear, Ext>::new(alloc);
    let mut c = ExtConstraints::new(alloc, &e, 2);
    let value = e.current(0);
    let (z, next) = (e.permutation(0), e.permutation_next(0));
    let alpha = e.challenge(0);
    c.when_first_row().assert_one_ext(z);
    c.assert_bool(e.current(1));
    c.when_transition()
        .named("product")
        .assert_eq_ext(next, z * (alpha + value));
    c.when_last_row()
        .assert_eq_ext(e.permutation_value(0), z * (alpha + value));
    c.into_air()
}

/// The entries that the constraints name.
fn layout() -> AirLayout {
    AirLayout {
        main_width: 2,
        permutation_width: 1,
        num_permutation_challenges: 1,
        num_permutation_values: 1,
        ..AirLayout::default()
    }
}

/// The AIR's constraints, as it asserts them.
fn by_air<F: Field, EF: ExtensionField<F>>(
    alloc: Global,
    air: &FlatExtAir<F, EF>,
) -> Result<Recorded<F, EF>, AirError> {
    get_all_symbolic_constraints(alloc, air, layout())
}

/// The same constraints, recorded of an author's values.
fn by_values<F: Field, EF: ExtensionField<F>>(alloc: Global) -> Result<Recorded<F, EF>, AirError> {
    let mut builder: SymbolicAirBuilder<F, EF> = SymbolicAirBuilder::new(alloc, layout())?;
    let more = permutation_current(0) * (challenge(0) + current(0));
    let constraints = (
        When(FirstRow, ExtIsOne(permutation_current(0))),
        Boolean(current(1)),
        When(Transition, permutation_next(0).ext_equals(more)),
        When(LastRow, permutation_value(0).ext_equals(more)),
    );
    record_these(&mut builder, &constraints)?;
    Ok(finish_recording(builder))
}

/// Whether both ways record the same, in pools of as many nodes.
fn compared(alloc: Global) -> Result<bool, AirError> {
    let air = running_product(alloc)?;
    let one = by_air(alloc, &air)?;
    let other: Recorded<BabyBear, Ext> = by_values(alloc)?;
    let (text, values_text) = (recorded_shown(alloc, &one)?, recorded_shown(alloc, &other)?);
    Ok(
        text.as_str() == values_text.as_str()
            && one.pool.len() == other.pool.len()
            && one.pool.base().len() == other.pool.base().len(),
    )
}

/// A trace: its columns, and its products.
#[derive(Drop)]
struct Traces {
    main: RowMajorMatrix<BabyBear>,
    products: RowMajorMatrix<Ext>,
}

/// The rows of numbers, and beside them the products of the challenge plus the numbers above. Bits are zero but for the
/// last, which is given.
fn traces_of(
    alloc: Global,
    challenge: Ext,
    numbers: [u64; 4],
    last: u64,
) -> Result<Traces, AirError> {
    let [n0, n1, n2, n3] = numbers;
    let main = trace_of_rows(alloc, &[[n0, 0], [n1, 0], [n2, 1], [n3, last]])?;
    let mut products = Vec::new(alloc);
    let mut product = Ext::one();
    for number in numbers {
        products.push(product)?;
        product = product.mul(challenge.add(Ext::from_base(BabyBear::from_u64(number))));
    }
    let products = RowMajorMatrix::new(products, 1)?;
    Ok(Traces { main, products })
}

/// No cells.
fn no_cells<'a, T: Copy>() -> ViewPair<'a, T> {
    let none = RowMajorMatrixView::new_row(&[]);
    ViewPair::new(none, none)
}

/// A row of four, and the one after it around the end; no cells of a row that isn't there.
fn pair_of<'a, T: Copy>(trace: &'a RowMajorMatrix<T>, row: usize) -> ViewPair<'a, T> {
    let next = if row < 3 { row + 1 } else { 0 };
    let (Some(top), Some(bottom)) = (trace.row_slice(row), trace.row_slice(next)) else {
        return no_cells();
    };
    if top.len() != bottom.len() {
        return no_cells();
    }
    ViewPair::new(
        RowMajorMatrixView::new_row(top),
        RowMajorMatrixView::new_row(bottom),
    )
}

/// The constraints that fail at a row of four.
fn failures_at<F: Field, EF: ExtensionField<F> + 'static>(
    alloc: Global,
    air: &FlatExtAir<F, EF>,
    main: &RowMajorMatrix<F>,
    beside: Permutation<'_, EF>,
    row: usize,
) -> Result<Vec<ConstraintFailure>, AirError> {
    let mut builder = DebugConstraintBuilder::new_with_permutation(
        alloc,
        row,
        pair_of(main, row),
        no_cells(),
        &[],
        F::from_bool(row == 0),
        F::from_bool(row == 3),
        F::from_bool(row != 3),
        pair_of(beside.trace, row),
        beside.challenges,
        beside.values,
        Vec::new(alloc),
    );
    air.eval(&mut builder)?;
    Ok(builder.into_failures())
}

/// A line for each row: the constraints that fail on it. With X for the root, whose fourth power is 11, the challenge is
/// 11 + X, and what is exposed is (13 + X)(14 + X)(16 + X)(18 + X).
fn report_of(alloc: Global, numbers: [u64; 4], last: u64) -> Result<String, AirError> {
    let challenge = Ext::from_basis_coefficients(&[11, 1, 0, 0].map(BabyBear::new));
    let exposed = Ext::from_basis_coefficients(&[52427, 13964, 1388, 61].map(BabyBear::new));
    let air = running_product(alloc)?;
    let traces = traces_of(alloc, challenge, numbers, last)?;
    let (challenges, values) = ([challenge], [exposed]);
    let beside = Permutation::new(&traces.products, &challenges, &values);
    let mut text = String::new(alloc);
    for row in 0..4 {
        let failures = failures_at(alloc, &air, &traces.main, beside, row)?;
        write!(text, "row {row}:")?;
        for failure in &failures {
            write!(text, " {failure}")?;
        }
        text.push_str("\n")?;
    }
    Ok(text)
}

/// Prints the constraints, whether an author's values record the same, and what fails on rows.
pub fn print(rt: &HostRuntime) -> io::Result<()> {
    let alloc = rt.alloc();
    print_ext_shown(rt, "running product", running_product(alloc))?;
    match compared(alloc) {
        Ok(same) => println!(rt; "recorded as an author's values are: {same}")?,
        Err(error) => println!(rt; "refused: {error}")?,
    }
    for (numbers, last) in [([7, 2, 5, 3], 1), ([7, 2, 5, 5], 2)] {
        match report_of(alloc, numbers, last) {
            Ok(text) => print!(rt; "{text}")?,
            Err(error) => println!(rt; "refused: {error}")?,
        }
    }
    Ok(())
}
