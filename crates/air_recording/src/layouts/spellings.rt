//! Layouts as JSON values.
ghost use Rattle.std.specs.Prelude.{◌≡◌, IfOk};
ghost use Rattle.serde_json.specs.View.{view};
ghost use Rattle.air_recording.specs.Spellings.{layout_data, layout_from_data, constraints_data};

use crate::layouts::air_layout::AirLayout;
use crate::layouts::constraint_layout::ConstraintLayout;
use air_json::parts::whole_at;
use air_json::whole_lists::{wholes_at, wholes_value};
use air_json::{FlatError, Spelled};
use serde_json::{Value, json};
use std::alloc::{AllocError, Global};

fn layout_value(alloc: Global, layout: &AirLayout) -> Result<Value, AllocError>
    ensures { IfOk result (λ v. view v ≡ layout_data layout.now) }
{
    json!(in alloc; {
        "main_width": layout.main_width,
        "num_periodic_columns": layout.num_periodic_columns,
        "num_permutation_challenges": layout.num_permutation_challenges,
        "num_permutation_values": layout.num_permutation_values,
        "num_public_values": layout.num_public_values,
        "permutation_width": layout.permutation_width,
        "preprocessed_width": layout.preprocessed_width
    })
}

#[tactic(auto, unfolding(crate::specs::Spellings::layout_from_data))]
fn layout_from(value: &Value) -> Option<AirLayout>
    ensures { result ≡ layout_from_data (view value.now) }
{
    Some(AirLayout {
        preprocessed_width: whole_at(value, "preprocessed_width")?,
        main_width: whole_at(value, "main_width")?,
        num_public_values: whole_at(value, "num_public_values")?,
        permutation_width: whole_at(value, "permutation_width")?,
        num_permutation_challenges: whole_at(value, "num_permutation_challenges")?,
        num_permutation_values: whole_at(value, "num_permutation_values")?,
        num_periodic_columns: whole_at(value, "num_periodic_columns")?,
    })
}

fn constraints_value(alloc: Global, layout: &ConstraintLayout) -> Result<Value, AllocError>
    ensures { IfOk result (λ v. view v ≡ constraints_data layout.now) }
{
    let base = wholes_value(alloc, &layout.base_indices)?;
    let ext = wholes_value(alloc, &layout.ext_indices)?;
    json!(in alloc; {"base_indices": base, "ext_indices": ext})
}

impl Spelled for AirLayout {
    ghost use Rattle.air_recording.specs.Spellings.{SpellsLayout, layout_data as data_of_layout};
    ghost use Rattle.air_recording.specs.laws.Spellings.{layout_is_spelt, layout_is_only};

    ghost spelling = { data_of_layout };

    ghost spells = { SpellsLayout };

    fn to_value(&self, alloc: Global) -> Result<Value, FlatError> {
        Ok(layout_value(alloc, self)?)
    }

    fn from_value(_alloc: Global, value: &Value) -> Result<Self, FlatError> {
        layout_from(value).ok_or(FlatError::Shape { at: 0 })
    }

    ghost is_spelt = { layout_is_spelt };

    ghost is_only = { layout_is_only };
}

impl Spelled for ConstraintLayout {
    ghost use Rattle.air_recording.specs.Spellings.{SpellsConstraints, HaveSameIndices, constraints_data as data_of_constraints};
    ghost use Rattle.air_recording.specs.laws.Spellings.{constraints_are_spelt, constraints_are_only};

    ghost spelling = { data_of_constraints };

    ghost spells = { SpellsConstraints };

    ghost same = { HaveSameIndices };

    fn to_value(&self, alloc: Global) -> Result<Value, FlatError> {
        Ok(constraints_value(alloc, self)?)
    }

    fn from_value(alloc: Global, value: &Value) -> Result<Self, FlatError> {
        let base_indices = wholes_at(alloc, value, "base_indices")?;
        let ext_indices = wholes_at(alloc, value, "ext_indices")?;
        Ok(ConstraintLayout {
            base_indices,
            ext_indices,
        })
    }

    ghost is_spelt = { constraints_are_spelt };

    ghost is_only = { constraints_are_only };
}
