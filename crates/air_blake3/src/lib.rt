//! BLAKE3's compression function as an AIR, with one compression in each row; the construction of rows and whole
//! traces; and the consequences of a check for each row of a trace.
#![tactic(auto)]

pub mod blocks;
pub mod checks;
mod columns;
pub mod compression;
mod ends;
pub mod laws;
pub mod messages;
mod mixing;
mod rounds;
pub mod rows;
pub mod traces;
mod values;
mod words;

pub use blocks::{InputBlock, ZERO_BLOCK};
pub use checks::{are_compressions, empty_report_is_sound, report_is_empty};
pub use compression::Compression;
pub use laws::{compression_is_complete, compression_is_sound};
pub use messages::blocks_of_message;
pub use rows::row_of_block;
pub use traces::{TraceError, trace_of_blocks};
