//! A trace with a value, an entry of the table and its multiplicity on each row, and the shares of its rows.
use p3_air::{
    AirError, BabyBear, BinomialExtensionField as Extension, DomainExtension, ExtensionField,
    Field, RowMajorMatrix,
};
use std::alloc::Global;

/// The squares modulo 256; if the trace is to be broken, row 200 has 256.
fn value_at(row: u64, broken: bool) -> u64 {
    if broken && row == 200 {
        256
    } else {
        row.wrapping_mul(row) % 256
    }
}

/// The rows of a trace. The multiplicity of an entry is the number of rows that look it up.
pub fn table_rows(alloc: Global, broken: bool) -> Result<Vec<[u64; 3]>, AirError> {
    let mut rows = Vec::with_capacity(alloc, 256)?;
    for entry in 0..256 {
        let mut multiplicity: u64 = 0;
        for row in 0..256 {
            if value_at(row, broken) == entry {
                multiplicity = multiplicity.wrapping_add(1);
            }
        }
        rows.push([value_at(entry, broken), entry, multiplicity])?;
    }
    Ok(rows)
}

/// The multiplicity divided by alpha less the value; zero at a pole.
fn share(alpha: Extension, value: u64, multiplicity: BabyBear) -> Extension {
    let apart = alpha.sub(Extension::from_base(BabyBear::from_u64(value)));
    match apart.try_inverse() {
        Some(inverse) => inverse.mul(Extension::from_base(multiplicity)),
        None => Extension::zero(),
    }
}

/// The permutation trace: the sum of the shares of the rows before, and the row's two shares.
pub fn shares_of(
    alloc: Global,
    rows: &[[u64; 3]],
    alpha: Extension,
) -> Result<RowMajorMatrix<Extension>, AirError> {
    let (mut cells, mut sum) = (Vec::new(alloc), Extension::zero());
    for [value, entry, multiplicity] in rows {
        let looked_up = share(alpha, *value, BabyBear::NEG_ONE);
        let offered = share(alpha, *entry, BabyBear::from_u64(*multiplicity));
        cells.push(sum)?;
        cells.push(looked_up)?;
        cells.push(offered)?;
        sum = sum.add(looked_up).add(offered);
    }
    Ok(RowMajorMatrix::new(cells, 3)?)
}
