//! One file of tests for each layer, and what several of them share.
mod builders;
mod checks;
mod labels;
mod lent;
mod recordings;
mod rows;
mod streams;
