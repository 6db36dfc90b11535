//! Constraints as values, with which an author writes an AIR. `use p3_air::author::*;` imports all that its file needs.

pub use air_author::{
    All, Already, BoolCheck, Boolean, Challenge, Claim, Condition, Constant, Constraint, Current,
    Difference, Double, E, Each, Equal, Everywhere, Expression, ExtBoolean, ExtClaim, ExtConstant,
    ExtEqual, ExtExpression, ExtIsOne, ExtNamed, ExtZero, Family, FirstRow, IsOne, Label, LastRow,
    Lifted, MovableConstraints, Moved, Named, Negative, Next, Number, One, Periodic,
    PermutationCurrent, PermutationNext, PermutationValue, Plain, PlainAir, PlainConstraints,
    Power, PreprocessedCurrent, PreprocessedNext, Product, Public, Square, Sum, Transition, When,
    Xor, Zero, assert_all, assert_these, challenge, constant, current, ext_constant, next, number,
    periodic, permutation_current, permutation_next, permutation_value, preprocessed_current,
    preprocessed_next, public,
};
pub use air_builder::{AirBuilder, AirError, PermutationAirBuilder};
pub use air_field::{Field, FromVar};
pub use air_gadgets::{
    Add2, Add3, Bits, Columns, HasBits, Packed, PackedBits, Rotated, Series, Word, WordOfBits,
    Xor32Shift,
};
