//! What an AIR has beside its constraints.
ghost use Rattle.std.specs.Prelude.{◌≡◌, List};
ghost use Rattle.air_builder.specs.Assertion.{Assertion};
ghost use Rattle.air_builder.specs.Declaration.{declaration_of, plain_declaration};

use air_core::boundary::BoundaryPublic;
use air_field::{Field, RowMajorMatrix};
use std::alloc::Global;

/// What an AIR has beside its constraints.
#[derive(Drop)]
pub struct Beside<F: Field> {
    /// The number of columns of the main trace.
    pub width: usize,
    pub num_public_values: usize,
    /// The preprocessed trace, if there is one.
    pub preprocessed: Option<RowMajorMatrix<F>>,
    /// The periodic columns, each the values of one period.
    pub periodic: Vec<Vec<F>>,
    /// The boundary values: cells of the main trace that are to hold public values.
    pub cells: Vec<BoundaryPublic>,
}

impl<F: Field> Beside<F> {
    /// A main trace of `width` columns, `num_public_values` public values, and nothing else.
    pub fn new(alloc: Global, width: usize, num_public_values: usize) -> Self
        ensures { (ts : List (Assertion F)) →
            declaration_of ts result ≡ plain_declaration ts width num_public_values }
    {
        Beside {
            width,
            num_public_values,
            preprocessed: None,
            periodic: Vec::new(alloc),
            cells: Vec::new(alloc),
        }
    }
}
