//! Tests that no line of a table can express: failing streams, lazy names, contexts, and errors through `?`.
#![tactic(auto)]

#[cfg(test)]
mod tests;
