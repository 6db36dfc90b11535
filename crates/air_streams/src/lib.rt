//! Sources and sinks of bytes, and reading whole inputs and writing whole texts over them.
#![tactic(auto)]

mod adapters;
mod stream;
mod whole;

pub use adapters::{ReadSource, WriteSink};
pub use stream::{Sink, Source, StreamFault};
pub use whole::{ReadFault, read_all, write_all};
