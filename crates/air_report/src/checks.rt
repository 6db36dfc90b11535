//! Checks of a whole trace.

pub mod cells;
pub mod check;
pub mod check_first;
pub mod permutation;
pub mod permuted;
pub mod report;
pub mod shapes;
