//! Permutation data of a whole trace.
ghost use Rattle.std.specs.Prelude.{◌≡◌};

use air_field::RowMajorMatrix;

/// The permutation trace of an AIR, the challenges that it was made with, and the values that its argument exposes.
#[derive(Clone, Copy, Drop)]
pub struct Permutation<'a, EF> {
    pub trace: &'a RowMajorMatrix<EF>,
    pub challenges: &'a [EF],
    pub values: &'a [EF],
}

impl<'a, EF> Permutation<'a, EF> {
    /// The permutation data of these three. Nothing is checked.
    pub fn new(trace: &'a RowMajorMatrix<EF>, challenges: &'a [EF], values: &'a [EF]) -> Self
        ensures trace { result.trace ≡ trace.entry }
        ensures challenges { result.challenges ≡ challenges.entry }
        ensures values { result.values ≡ values.entry }
    {
        Permutation {
            trace,
            challenges,
            values,
        }
    }
}
