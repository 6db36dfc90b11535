//! Fields: the interface and its laws, four prime fields, and extensions of dimension 1 and 4.

pub mod baby_bear;
pub mod binomial;
mod binomial_field;
pub mod extension;
pub mod field;
pub mod goldilocks;
mod goldilocks_field;
pub mod koala_bear;
pub mod mersenne31;
pub mod modulus;
pub mod order;
mod own_extension;
pub mod power;
pub mod product;
pub mod residue;
mod residue_field;
mod residue_inverse;
pub mod self_extension;
