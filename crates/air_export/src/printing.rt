//! Printing an object.
ghost use Rattle.std.specs.Prelude.{◌≡◌, ◌≤◌, Some, IfOk, string_bytes};
ghost use Rattle.serde_json.specs.Data.{depth};
ghost use Rattle.serde_json.specs.Read.{read, max_depth};
ghost use Rattle.serde_json.specs.View.{view};

use crate::errors::ExportError;
use air_core::AirError;
use serde_json::Value;
use std::alloc::{AllocError, Global};
use std::io;

/// The text of an object, which reads as the object, on one line; or why there is none.
fn line_of(alloc: Global, object: &Result<Value, ExportError>) -> Result<String, AllocError>
    ensures { IfOk object.now (λ v. IfOk result (λ line. depth (view v) ≤ max_depth →
        read (string_bytes line) ≡ Some (view v))) }
{
    match object {
        Ok(object) => object.to_string(alloc),
        Err(error) => format!(in alloc; "refused: {error}"),
    }
}

/// Prints an object on one line, or why there is none. No contract sees what is printed; the line is that of `line_of`.
pub fn print_object(rt: &HostRuntime, object: Result<Value, ExportError>) -> io::Result<()> {
    match line_of(rt.alloc(), &object) {
        Ok(line) => println!(rt; "{line}"),
        Err(_) => println!(rt; "refused: {}", AirError::Memory),
    }
}
