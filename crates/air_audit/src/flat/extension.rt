//! AIRs from outside with constraints over an extension.

pub mod air;
mod eval;
mod leaves;
mod nodes;
mod plan;
mod roots;
mod table;
