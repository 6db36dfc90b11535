//! Which preprocessed traces and periodic columns fit a trace.
ghost use Rattle.std.specs.Prelude.{◌≡◌, ◌↔◌, IsTrue, IfErr, OnOk};
ghost use Rattle.std.specs.Option.{option_copied};
ghost use Rattle.std.specs.Int.{IsPowerOfTwo};
ghost use Rattle.air_report.specs.Shapes.{IsHeightFault, MatchShapes, table_height};

use air_builder::AirError;
use air_field::RowMajorMatrix;

/// Whether the number is a power of two; 0 isn't.
fn is_power(n: usize) -> bool
    ensures { IsTrue result ↔ IsPowerOfTwo n }
{
    n.is_power_of_two()
}

/// The number of rows of the preprocessed trace, if there is one.
pub(crate) fn table_height<F: Copy>(table: Option<&RowMajorMatrix<F>>) -> Option<usize>
    ensures { result ≡ table_height (option_copied table.entry) }
{
    match table {
        Some(table) => Some(table.height()),
        None => None,
    }
}

/// Checks the shapes and names the first that doesn't fit: the preprocessed trace must have the trace's height, and
/// then each column's period must be a power of two that divides it.
pub(crate) fn check_shapes<T: Copy>(
    columns: &[Vec<T>],
    height: usize,
    preprocessed: Option<usize>,
) -> Result<(), AirError>
    ensures { MatchShapes columns.now height preprocessed result }
{
    if let Some(preprocessed) = preprocessed {
        if preprocessed != height {
            return Err(AirError::PreprocessedHeight {
                preprocessed,
                main: height,
            });
        }
    }
    for (index, column) in columns.iter().enumerate() {
        let length = column.len();
        if !is_power(length) {
            return Err(AirError::PeriodNotPowerOfTwo { index, length });
        }
        if height % length != 0 {
            return Err(AirError::PeriodDoesNotDivide {
                index,
                length,
                height,
            });
        }
    }
    Ok(())
}

/// Checks that a permutation trace of this height fits a trace.
pub(crate) fn check_permutation_height(permutation: usize, height: usize) -> Result<(), AirError>
    ensures fits { OnOk result (permutation ≡ height) }
    ensures refused { IfErr result (IsHeightFault permutation height) }
{
    if permutation != height {
        return Err(AirError::PermutationHeight {
            permutation,
            main: height,
        });
    }
    Ok(())
}
