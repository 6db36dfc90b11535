//! Evaluation of an AIR on one concrete row.

pub mod builder;
mod builder_impl;
mod extension;
pub mod failure;
mod logging;
mod named;
pub(crate) mod row;
