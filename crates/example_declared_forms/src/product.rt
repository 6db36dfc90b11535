//! A running product over the extension: the product of all rows is the exposed value.
ghost use Rattle.example_declared_forms.specs.Product.{running_product};

use p3_air::author::*;
use p3_air::{BinomialExtensionField as Extension, *};
use std::alloc::Global;
use std::io;

/// Column 0 of the permutation trace is one on row 0. Each row multiplies it by the challenge plus main column 0.
pub struct RunningProduct;

impl<F: Field> PlainAir<F> for RunningProduct {
    ghost plain = { λ _. (running_product F.ring, 1, 0) };

    fn width_and_public_values(&self) -> (usize, usize) {
        (1, 0)
    }
}

impl<AB: PermutationAirBuilder> PlainConstraints<AB> for RunningProduct
where
    AB::ExtRing: FromVar<AB::F, AB::RandomVar> + FromVar<AB::F, AB::PermutationVar>,
{
    fn eval(&self, builder: &mut AB) -> Result<(), AirError> {
        let more = permutation_current(0) * (challenge(0) + current(0));
        let constraints = (
            When(FirstRow, ExtIsOne(permutation_current(0))),
            When(Transition, permutation_next(0).ext_equals(more)),
            When(LastRow, permutation_value(0).ext_equals(more)),
        );
        assert_all(builder, &constraints)
    }
}

/// One line for each row: the constraints that fail on it.
fn report_on(
    alloc: Global,
    air: &RunningProduct,
    column: &RowMajorMatrix<BabyBear>,
    beside: Permutation<'_, Extension>,
) -> Result<String, AirError> {
    let (public_values, mut text) = ([], String::new(alloc));
    for row in 0..column.height().min(beside.trace.height()) {
        let failed = check_row_with_permutation(alloc, air, column, &public_values, beside, row)?;
        write!(text, "row {row}: {failed:?}\n")?;
    }
    Ok(text)
}

/// With X the root (X^4 = 11), the challenge is 11 + X, and the exposed value is (13 + X)(14 + X)(16 + X)(18 + X).
fn report_of(alloc: Global, numbers: [u64; 4]) -> Result<String, AirError> {
    let challenge = Extension::from_basis_coefficients(&[11, 1, 0, 0].map(BabyBear::new));
    let exposed = Extension::from_basis_coefficients(&[52427, 13964, 1388, 61].map(BabyBear::new));
    let mut products = Vec::new(alloc);
    let mut product = Extension::one();
    for number in numbers {
        products.push(product)?;
        product = product.mul(challenge.add(Extension::from_base(BabyBear::from_u64(number))));
    }
    let (trace, challenges, values) = (RowMajorMatrix::new(products, 1)?, [challenge], [exposed]);
    let column = trace_of_rows(alloc, &numbers.map(|number| [number]))?;
    let beside = Permutation::new(&trace, &challenges, &values);
    report_on(alloc, &RunningProduct, &column, beside)
}

/// Checks a permutation of the column whose product is exposed, and another column.
pub fn print(rt: &HostRuntime) -> io::Result<()> {
    for numbers in [[7, 2, 5, 3], [7, 2, 5, 5]] {
        match report_of(rt.alloc(), numbers) {
            Ok(text) => print!(rt; "{text}")?,
            Err(error) => println!(rt; "refused: {error}")?,
        }
    }
    Ok(())
}
