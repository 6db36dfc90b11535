//! AIRs, the builders that receive their constraints, and filters.
//!
//! Calls fail only with `Memory` unless they say otherwise. Calls on a builder fail only as its `refuses` allows.
#![tactic(auto)]

pub mod airs;
pub mod builders;

pub use air_core::{
    AirError, BoundaryEnd, BoundaryIoError, BoundaryPublic, Element, EvaluatedJoined, Joined, Lazy,
    Name, Namespace, NamespaceExt, RowWindow, TwoRows, WindowAccess,
};
pub use airs::air::{Air, BaseAir};
pub use airs::beside::Beside;
pub use builders::air_builder::AirBuilder;
pub use builders::assert_all::AssertAll;
pub use builders::assert_all_ext::AssertAllExt;
pub use builders::assert_all_named::AssertAllNamed;
pub use builders::context::AirBuilderWithContext;
pub use builders::extension::ExtensionBuilder;
pub use builders::filtered::FilteredAirBuilder;
pub use builders::named::NamedAirBuilder;
pub use builders::named_extension::NamedExtensionBuilder;
pub use builders::passthrough::PassthroughNamedAirBuilder;
pub use builders::permutation::PermutationAirBuilder;
pub use builders::view::{View, ViewExt, ViewOver};
