//! Types that own no memory and have a spelling.
ghost use Rattle.std.specs.Prelude.{◌≡◌, IfOk};
ghost use Rattle.serde_json.specs.View.{view};
ghost use Rattle.air_json.specs.Plain.{Plain as PlainSpelling, PlainLaws};

use crate::errors::FlatError;
use crate::spelled::Spelled;
use serde_json::Value;
use std::alloc::{AllocError, Global};

/// A type that owns no memory, and is spelt as a JSON value by itself. Every `Plain` type is `Spelled`.
pub trait Plain {
    ghost plain: { PlainSpelling Self };

    /// The JSON value written for `self`.
    fn spell(&self, alloc: Global) -> Result<Value, AllocError>
        ensures { IfOk result (λ v. view v ≡ plain.written self.now) };

    /// The value that a JSON value spells, if any.
    fn read(value: &Value) -> Option<Self>
    where
        Self: Sized,
        ensures { result ≡ plain.read (view value.now) };

    ghost plain_laws: { PlainLaws plain };
}

impl<T: Plain> Spelled for T {
    ghost use Rattle.air_json.specs.laws.Plain.{is_only as only};

    ghost spelling = { T.plain.written };

    ghost spells = { T.plain.spells };

    fn to_value(&self, alloc: Global) -> Result<Value, FlatError> {
        Ok(self.spell(alloc)?)
    }

    fn from_value(_alloc: Global, value: &Value) -> Result<Self, FlatError> {
        T::read(value).ok_or(FlatError::Shape { at: 0 })
    }

    ghost is_spelt = { T.plain_laws.is_spelt };

    ghost is_only = { only T.plain T.plain_laws };
}
