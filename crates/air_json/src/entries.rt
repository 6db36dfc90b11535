//! Base entries and variables.
ghost use Rattle.std.specs.Prelude.{◌≡◌};
ghost use Rattle.serde_json.specs.View.{view};

use crate::cases::{indexed_value, offset_value};
use crate::parts::{only_member, whole_at};
use crate::plain::Plain;
use air_core::{BaseEntry, SymbolicVariable};
use serde_json::{Value, json};
use std::alloc::{AllocError, Global};

impl Plain for BaseEntry {
    ghost use Rattle.air_json.specs.Entries.{entry_plain};
    ghost use Rattle.air_json.specs.laws.Entries.{entry_laws};

    ghost plain = { entry_plain };

    fn spell(&self, alloc: Global) -> Result<Value, AllocError> {
        match *self {
            BaseEntry::Preprocessed { offset } => offset_value(alloc, "Preprocessed", offset),
            BaseEntry::Main { offset } => offset_value(alloc, "Main", offset),
            BaseEntry::Periodic => json!(in alloc; "Periodic"),
            BaseEntry::Public => json!(in alloc; "Public"),
        }
    }

    #[tactic(auto, unfolding(crate::specs::Entries::entry_names, crate::specs::EntryForms::entry_read))]
    fn read(value: &Value) -> Option<Self> {
        if let Some(name) = value.as_str() {
            return if name == "Periodic" {
                Some(BaseEntry::Periodic)
            } else if name == "Public" {
                Some(BaseEntry::Public)
            } else {
                None
            };
        }
        let (name, contents) = only_member(value)?;
        let offset = whole_at(contents, "offset")?;
        if name == "Main" {
            Some(BaseEntry::Main { offset })
        } else if name == "Preprocessed" {
            Some(BaseEntry::Preprocessed { offset })
        } else {
            None
        }
    }

    ghost plain_laws = { entry_laws };
}

impl<F> Plain for SymbolicVariable<F> {
    ghost use Rattle.air_json.specs.Entries.{variable_plain};
    ghost use Rattle.air_json.specs.laws.Entries.{variable_laws};

    ghost plain = { variable_plain };

    fn spell(&self, alloc: Global) -> Result<Value, AllocError> {
        let entry = self.entry.spell(alloc)?;
        indexed_value(alloc, entry, self.index)
    }

    #[tactic(auto, unfolding(crate::specs::EntryForms::indexed_read))]
    fn read(value: &Value) -> Option<Self> {
        let entry = BaseEntry::read(value.get("entry")?)?;
        let index = whole_at(value, "index")?;
        Some(SymbolicVariable::new(entry, index))
    }

    ghost plain_laws = { variable_laws };
}
