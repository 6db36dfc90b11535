//! The interface of builders, filters on them, and calls built on it.

pub mod air_builder;
pub mod assert_all;
pub mod assert_all_ext;
pub mod assert_all_named;
pub mod context;
pub mod extension;
pub mod extension_filter;
pub mod filtered;
pub mod named;
pub mod named_extension;
mod named_filter;
pub mod passthrough;
pub mod permutation;
pub mod view;
