//! The selectors of a row.
ghost use Rattle.std.specs.Prelude.{◌≡◌, ◌<◌};
ghost use Rattle.air_core.specs.Selectors.{row_selectors};

use air_field::Field;

/// The three selectors of a row, as values or as expressions.
#[derive(Clone, Copy, Debug)]
pub struct Selectors<E> {
    pub is_first_row: E,
    pub is_last_row: E,
    pub is_transition: E,
}

impl<F: Field> Selectors<F> {
    /// The values of the selectors at a row of a trace of this height.
    #[inline(always)]
    pub fn at(row: usize, height: usize) -> Self
        requires { row < height }
        ensures { result ≡ row_selectors F.ring row height }
    {
        let is_last = row + 1 == height;
        Selectors {
            is_first_row: F::from_bool(row == 0),
            is_last_row: F::from_bool(is_last),
            is_transition: F::from_bool(!is_last),
        }
    }
}
