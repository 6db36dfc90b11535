//! Leaves that can occur in lists of nodes.
ghost use Rattle.std.specs.Prelude.{◌≡◌, IfOk, IfErr};
ghost use Rattle.serde_json.specs.View.{view};
ghost use Rattle.air_json.specs.Nodes.{Kind, KindLaws};
ghost use Rattle.air_json.specs.Results.{Gives};
ghost use Rattle.air_json.specs.Unshared.{WireLaws};

use crate::errors::FlatError;
use air_symbolic::SymLeaf;
use serde_json::Value;
use std::alloc::Global;

/// A leaf that can be read from a JSON value and written as one.
pub trait WireLeaf: SymLeaf {
    // A leaf without numbers of a pool.
    ghost View: { Type 0 };

    ghost seen: { Self.Base → Self → View };

    ghost kind: { Kind View Self.F };

    /// The leaf that the value spells in the node at place `at`. Fails with the first fault of any other value.
    fn leaf_from_value(
        alloc: Global,
        at: usize,
        base: &mut Self::Base,
        value: &Value,
    ) -> Result<Self, FlatError>
    where
        Self: Sized,
        requires { (Self.reads base.old).sound }
        ensures grown { Self.grows base.old base.new }
        ensures valid { IfOk result (λ a. (Self.reads base.new).valid a) }
        ensures read { Gives (seen base.new) result (kind.leaf_at at (view value.now)) };

    /// The JSON value written for the leaf.
    fn leaf_value(&self, alloc: Global, base: &Self::Base) -> Result<Value, FlatError>
        requires sound { (Self.reads base.now).sound }
        requires valid { (Self.reads base.now).valid self.now }
        ensures written { IfOk result (λ v. kind.writes (view v) (seen base.now self.now)) }
        ensures refused { IfErr result (λ e. e ≡ FlatError.Memory) };

    ghost wire_laws: { WireLaws Self.reads Self.grows seen kind.term };

    ghost kind_laws: { KindLaws kind };
}
