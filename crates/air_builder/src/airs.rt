//! AIRs: what they declare, and how they assert it on a builder.

pub mod air;
pub mod beside;
pub mod columns;
