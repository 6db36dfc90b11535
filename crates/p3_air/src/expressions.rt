//! Expressions: handles of steps, and the type that makes them.
//!
//! [`Expressions`](nodes::Expressions) makes expressions ([`Expr`](view::Expr)), which are bare references. Each call
//! writes one [`Step`](air_draft::Step), and its contract says which: `x + y` writes the sum of the steps of x and y.
//! [`Expressions::listing`](nodes::Expressions::listing) gives all steps in order, and
//! [`Listing::get`](listing::Listing::get) the step that an expression's call wrote.

pub mod columns;
pub mod expr;
pub mod handed;
pub mod listing;
pub mod nodes;
pub mod operators;
pub mod view;
pub mod windows;
