//! Fields, matrices, and rings that make expressions, with the definitions that all crates share: terms, their values,
//! polynomials and degrees, and the values of the leaves at a row of a trace.
#![tactic(auto)]

pub mod errors;
pub mod fields;
pub mod matrices;
pub mod rings;

pub use errors::{MatrixError, RingError};
pub use fields::baby_bear::{BabyBear, BabyBearModulus, BinomialExtensionField};
pub use fields::binomial::{BinomialExtension, BinomialModulus};
pub use fields::extension::{DomainExtension, ExtensionField};
pub use fields::field::{Field, PrimeField, PrimeField64};
pub use fields::goldilocks::Goldilocks;
pub use fields::koala_bear::{KoalaBear, KoalaBearExtension, KoalaBearModulus};
pub use fields::mersenne31::{Mersenne31, Mersenne31Modulus};
pub use fields::modulus::Modulus;
pub use fields::order::{extension_order, field_order};
pub use fields::residue::Residue;
pub use fields::self_extension::SelfExtension;
pub use matrices::matrix::{RowMajorMatrix, row_after};
pub use matrices::view::{RowMajorMatrixView, ViewPair};
pub use rings::algebra::{Algebra, FromVar};
pub use rings::ext_algebra::ExtAlgebra;
pub use rings::ext_field_ring::ExtFieldRing;
pub use rings::field_ring::FieldRing;
