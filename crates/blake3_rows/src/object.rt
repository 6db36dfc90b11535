//! The trace of a message as an object.
ghost use Rattle.std.specs.Prelude.{◌≤◌, ◌^◌, length};

use crate::refusals::Refusal;
use air_blake3::{Compression, blocks_of_message, trace_of_blocks};
use air_export::export_air;
use p3_air::BabyBear;
use serde_json::Value;
use std::alloc::Global;

/// The compression and the trace of a message's blocks, as the object that `./air_check flat` reads.
pub fn object_of_message(alloc: Global, message: &[u8]) -> Result<Value, Refusal>
    requires { length message.now ≤ 2 ^ 10 }
{
    let blocks = blocks_of_message(alloc, message)?;
    let trace = trace_of_blocks::<BabyBear>(alloc, &blocks)?;
    Ok(export_air(alloc, &Compression {}, &trace, &[], None, 0)?)
}
