//! Constraints as values: the author of an AIR writes its declared list and one call, and no proof.
//!
//! An expression is a value of a small type that knows its term: `current(0) + current(1)` is `Sum(Current(0),
//! Current(1))`. A constraint is a value of a small type that knows its assertion: `next(1).equals(x)` is
//! `Equal(Next(1), x)`. In `eval` an author writes
//!
//!     let (a, b) = (current(0), current(1));
//!     let first = When(FirstRow, (a.equals(public(0)), b.equals(public(1))));
//!     let steps = When(Transition, (next(0).equals(b), Named("sum", next(1).equals(a + b))));
//!     assert_all(builder, &(first, steps))
//!
//! The prover finds by computation that this is the declared list. A tuple of up to five constraints asserts them in
//! order; `Each` asserts those of a slice, and `All` those of a `Family`, which an index numbers. In nested `When`s the
//! inner selector multiplies first. Over the extension, `ExtZero`, `ExtEqual`, `ExtIsOne` and `ExtBoolean` take
//! expressions such as `permutation_current(i)` and `challenge(i)`, and base leaves.
//!
//! Bits, words and their sums are in air_gadgets. An AIR with only a main trace and public values is a [`PlainAir`]. To
//! use an expression `x` that a filter or a gadget was given, write `Already(x, value)`, where `value` is the value
//! from which it was made.
//!
//! Calls fail only as the builder's `refuses` allows, or with `Memory`. An entry that the builder lacks is refused by
//! its name, and an entry of the permutation trace with `NoPermutation` if the builder has no such trace.
//!
//! A function proves about five constraints quickly; put further ones into structs whose `assert_under` only delegates
//! to a value as above.
#![tactic(auto)]

pub mod conditions;
pub mod constraints;
pub mod expressions;
pub mod moved;
pub mod operators;
pub mod plain;

use air_builder::AirError;
pub use conditions::{Condition, Everywhere};
pub use constraints::claims::{Boolean, Claim, Equal, IsOne, Zero};
pub use constraints::extension::{ExtBoolean, ExtClaim, ExtEqual, ExtIsOne, ExtNamed, ExtZero};
pub use constraints::families::{All, Each, Family};
pub use constraints::named::{Label, Named};
pub use constraints::when::When;
pub use constraints::{Constraint, assert_all, assert_these};
pub use expressions::already::Already;
pub use expressions::arithmetic::{
    BoolCheck, Difference, Double, Gated, Less, Negative, Product, Square, Sum, Xor,
    make_difference, make_product, make_sum,
};
pub use expressions::columns::{
    Current, Next, Periodic, PreprocessedCurrent, PreprocessedNext, Public,
};
pub use expressions::constants::{Constant, Number, One};
pub use expressions::extension::{ExtConstant, Lifted};
pub use expressions::permutation::{
    Challenge, PermutationCurrent, PermutationNext, PermutationValue,
};
pub use expressions::power::Power;
pub use expressions::selectors::{FirstRow, LastRow, Transition};
pub use expressions::{Expression, ExtExpression, to_air_result};
pub use moved::{MovableConstraints, Moved};
pub use operators::E;
pub use operators::leaves::{
    challenge, constant, current, ext_constant, next, number, periodic, permutation_current,
    permutation_next, permutation_value, preprocessed_current, preprocessed_next, public,
};
pub use plain::{Plain, PlainAir, PlainConstraints};

/// The result of making an expression or of asserting constraints.
pub type AirResult<T = ()> = Result<T, AirError>;
