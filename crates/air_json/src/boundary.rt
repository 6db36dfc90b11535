//! Ends of a trace, and boundary values.
ghost use Rattle.std.specs.Prelude.{◌≡◌};
ghost use Rattle.serde_json.specs.View.{view};

use crate::parts::whole_at;
use crate::plain::Plain;
use air_core::{BoundaryEnd, BoundaryPublic};
use serde_json::{Value, json};
use std::alloc::{AllocError, Global};

impl Plain for BoundaryEnd {
    ghost use Rattle.air_json.specs.Boundaries.{end_plain};
    ghost use Rattle.air_json.specs.laws.Boundaries.{end_laws};

    ghost plain = { end_plain };

    fn spell(&self, alloc: Global) -> Result<Value, AllocError> {
        match *self {
            BoundaryEnd::First => json!(in alloc; "First"),
            BoundaryEnd::Last => json!(in alloc; "Last"),
        }
    }

    #[tactic(auto, unfolding(crate::specs::Boundaries::end_of))]
    fn read(value: &Value) -> Option<Self> {
        let name = value.as_str()?;
        if name == "First" {
            Some(BoundaryEnd::First)
        } else if name == "Last" {
            Some(BoundaryEnd::Last)
        } else {
            None
        }
    }

    ghost plain_laws = { end_laws };
}

impl Plain for BoundaryPublic {
    ghost use Rattle.air_json.specs.Boundaries.{cell_plain};
    ghost use Rattle.air_json.specs.laws.Boundaries.{cell_laws};

    ghost plain = { cell_plain };

    fn spell(&self, alloc: Global) -> Result<Value, AllocError> {
        let end = self.end.spell(alloc)?;
        json!(in alloc; {
            "column": self.column, "end": end, "public_value": self.public_value
        })
    }

    #[tactic(auto, unfolding(crate::specs::Boundaries::cell_of))]
    fn read(value: &Value) -> Option<Self> {
        let column = whole_at(value, "column")?;
        let end = BoundaryEnd::read(value.get("end")?)?;
        let public_value = whole_at(value, "public_value")?;
        Some(BoundaryPublic::new(column, end, public_value))
    }

    ghost plain_laws = { cell_laws };
}
