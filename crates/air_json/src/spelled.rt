//! Types that have a spelling.
ghost use Rattle.std.specs.Prelude.{◌≡◌, ◌≢◌, IfOk, IfErr};
ghost use Rattle.serde_json.specs.Data.{Data};
ghost use Rattle.serde_json.specs.View.{view};

use crate::errors::FlatError;
use serde_json::Value;
use std::alloc::Global;

/// A type whose values are spelt as JSON values by themselves, outside a list of nodes.
pub trait Spelled {
    // The JSON value that is written.
    ghost spelling: { Self → Data };

    // The JSON value spells this value, by the rules of reading.
    ghost spells: { Data → Self → Type 0 };

    // Both have the same contents; without owned memory, they are equal.
    ghost same: { Self → Self → Type 0 } = { λ x y. x ≡ y };

    /// The JSON value written for `self`.
    fn to_value(&self, alloc: Global) -> Result<Value, FlatError>
        ensures written { IfOk result (λ v. view v ≡ spelling self.now) }
        ensures refused { IfErr result (λ e. e ≡ FlatError.Memory) };

    /// The value that a JSON value spells. Fails with `Shape` at place 0 exactly if it spells none, or with `Memory`.
    fn from_value(alloc: Global, value: &Value) -> Result<Self, FlatError>
    where
        Self: Sized,
        ensures read { IfOk result (λ x. spells (view value.now) x) }
        ensures shape { IfErr result (λ e. e ≢ FlatError.Memory → e ≡ FlatError.Shape 0) }
        ensures nothing { IfErr result (λ e. e ≢ FlatError.Memory → (x : Self) → spells
            (view value.now) x → ⊥) };

    // The written JSON value spells the value it was written for, and a JSON value spells at most one value.
    ghost is_spelt: { (x : Self) → spells (spelling x) x };

    ghost is_only: { (d : Data) (x y : Self) → spells d x → spells d y → same x y };
}
