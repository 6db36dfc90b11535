//! Extension entries and variables.
ghost use Rattle.std.specs.Prelude.{◌≡◌};
ghost use Rattle.serde_json.specs.View.{view};

use crate::cases::{indexed_value, offset_value};
use crate::parts::{only_member, whole_at};
use crate::plain::Plain;
use air_core::{ExtEntry, SymbolicVariableExt};
use serde_json::{Value, json};
use std::alloc::{AllocError, Global};

impl Plain for ExtEntry {
    ghost use Rattle.air_json.specs.ExtEntries.{ext_entry_plain};
    ghost use Rattle.air_json.specs.laws.ExtEntries.{ext_entry_laws};

    ghost plain = { ext_entry_plain };

    fn spell(&self, alloc: Global) -> Result<Value, AllocError> {
        match *self {
            ExtEntry::Permutation { offset } => offset_value(alloc, "Permutation", offset),
            ExtEntry::Challenge => json!(in alloc; "Challenge"),
            ExtEntry::PermutationValue => json!(in alloc; "PermutationValue"),
        }
    }

    #[tactic(auto, unfolding(crate::specs::ExtEntries::ext_entry_names, crate::specs::EntryForms::entry_read))]
    fn read(value: &Value) -> Option<Self> {
        if let Some(name) = value.as_str() {
            return if name == "Challenge" {
                Some(ExtEntry::Challenge)
            } else if name == "PermutationValue" {
                Some(ExtEntry::PermutationValue)
            } else {
                None
            };
        }
        let (name, contents) = only_member(value)?;
        let offset = whole_at(contents, "offset")?;
        if name == "Permutation" {
            Some(ExtEntry::Permutation { offset })
        } else {
            None
        }
    }

    ghost plain_laws = { ext_entry_laws };
}

impl<F, EF> Plain for SymbolicVariableExt<F, EF> {
    ghost use Rattle.air_json.specs.ExtEntries.{ext_variable_plain};
    ghost use Rattle.air_json.specs.laws.ExtEntries.{ext_variable_laws};

    ghost plain = { ext_variable_plain };

    fn spell(&self, alloc: Global) -> Result<Value, AllocError> {
        let entry = self.entry.spell(alloc)?;
        indexed_value(alloc, entry, self.index)
    }

    #[tactic(auto, unfolding(crate::specs::EntryForms::indexed_read))]
    fn read(value: &Value) -> Option<Self> {
        let entry = ExtEntry::read(value.get("entry")?)?;
        let index = whole_at(value, "index")?;
        Some(SymbolicVariableExt::new(entry, index))
    }

    ghost plain_laws = { ext_variable_laws };
}
