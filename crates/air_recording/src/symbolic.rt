//! The recording of an AIR as expressions in a pool.

pub mod builder;
mod builder_impl;
pub(crate) mod constraints;
pub mod degree;
mod extension_impl;
pub mod kind;
mod named;
pub mod record;
pub(crate) mod row;
pub(crate) mod selectors;
