//! Cases with contents, as JSON values.
ghost use Rattle.std.specs.Prelude.{◌≡◌, IfOk};
ghost use Rattle.serde_json.specs.View.{view};
ghost use Rattle.air_json.specs.Spelling.{case_data};
ghost use Rattle.air_json.specs.EntryForms.{at_offset, form_data, indexed_object};

use serde_json::{Value, json};
use std::alloc::{AllocError, Global};

/// The case of this name with these contents.
pub(crate) fn case_value(alloc: Global, name: &str, contents: Value) -> Result<Value, AllocError>
    ensures { IfOk result (λ v. view v ≡ case_data name.now (view contents)) }
{
    json!(in alloc; {name: contents})
}

/// The entry of this name with an offset.
pub(crate) fn offset_value(alloc: Global, name: &str, offset: usize) -> Result<Value, AllocError>
    ensures { IfOk result (λ v. view v ≡ form_data (at_offset name.now offset)) }
{
    let contents = json!(in alloc; {"offset": offset})?;
    case_value(alloc, name, contents)
}

/// An entry with an index.
pub(crate) fn indexed_value(alloc: Global, entry: Value, index: usize) -> Result<Value, AllocError>
    ensures { IfOk result (λ v. view v ≡ indexed_object (view entry) index) }
{
    json!(in alloc; {"entry": entry, "index": index})
}
