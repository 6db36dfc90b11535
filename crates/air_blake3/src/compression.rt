//! The AIR, with one compression in each row.
ghost use Rattle.air_builder.specs.Declaration.{plain_declaration};
ghost use Rattle.air_blake3.specs.Row.{compression};

use crate::ends::{First, Message, Output};
use crate::rounds::Rounds;
use air_author::{All, assert_all};
use air_builder::{Air, AirBuilder, AirError, BaseAir};
use air_core::BoundaryPublic;
use air_field::{Field, RowMajorMatrix};

/// One compression in each row of 9,168 columns, whose layout is in the crate's README.
pub struct Compression {}

impl<F: Field> BaseAir<F> for Compression {
    ghost declaration = { λ _. plain_declaration (compression F.ring) 9168 0 };

    fn width(&self) -> usize {
        9168
    }

    fn num_public_values(&self) -> usize {
        0
    }

    fn preprocessed_trace(&self) -> Option<&RowMajorMatrix<F>> {
        None
    }

    fn periodic_columns(&self) -> &[Vec<F>] {
        &[]
    }

    fn public_boundary_io(&self) -> &[BoundaryPublic] {
        &[]
    }
}

impl<AB: AirBuilder> Air<AB> for Compression {
    fn eval(&self, builder: &mut AB) -> Result<(), AirError> {
        let constraints = (All(Message {}), First {}, All(Rounds {}), Output {});
        assert_all(builder, &constraints)
    }
}
