//! Evaluation of an AIR over an extension, folded by the powers of one element.

pub mod builder;
mod builder_impl;
mod extension;
mod named;
pub mod ring;
pub(crate) mod row;
mod values;
