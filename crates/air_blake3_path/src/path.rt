//! The AIR, with one node in each row.
ghost use Rattle.air_builder.specs.Declaration.{plain_declaration};
ghost use Rattle.air_blake3_path.specs.Path.{path};

use crate::fixed::{Fixed, Flags};
use crate::limbs::{Index, Limbs};
use air_author::{All, assert_all};
use air_blake3::Compression;
use air_builder::{Air, AirBuilder, AirError, BaseAir};
use air_core::BoundaryPublic;
use air_field::{Field, RowMajorMatrix};

/// One node in each row of 9,186 columns: those of `Compression`, the node's side, its index in its level, and the limbs
/// of its words. Public values are the limbs of the leaf and of the root, and the leaf's index.
pub struct MerklePath {}

impl<F: Field> BaseAir<F> for MerklePath {
    ghost declaration = { λ _. plain_declaration (path F.ring) 9186 33 };

    fn width(&self) -> usize {
        9186
    }

    fn num_public_values(&self) -> usize {
        33
    }

    fn preprocessed_trace(&self) -> Option<&RowMajorMatrix<F>> {
        None
    }

    fn periodic_columns(&self) -> &[Vec<F>] {
        &[]
    }

    fn public_boundary_io(&self) -> &[BoundaryPublic] {
        &[]
    }
}

impl<AB: AirBuilder> Air<AB> for MerklePath {
    fn eval(&self, builder: &mut AB) -> Result<(), AirError> {
        Compression {}.eval(builder)?;
        assert_all(builder, &(All(Limbs {}), Index {}, All(Fixed {}), Flags {}))
    }
}
