//! Names of constraints. A builder evaluates one only when it needs a label: the debug builder when a constraint fails.

pub mod element;
pub mod joined;
pub mod name;
pub mod namespace;
