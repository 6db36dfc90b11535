//! An AIR's constraints as a value in another AIR, on columns further right.
ghost use Rattle.std.specs.Prelude.{⊤, ◌^◌, ◌<◌};
ghost use Rattle.air_builder.specs.Batches.{AssertedIn};
ghost use Rattle.air_author.specs.Expressions.{AlwaysAfter};
ghost use Rattle.air_author.specs.Moved.{move_columns_under};

use crate::AirResult;
use crate::conditions::Condition;
use crate::constraints::Constraint;
use crate::plain::PlainAir;
use air_builder::{AirBuilder, View};

/// A plain AIR whose constraints may be part of another AIR.
///
/// A builder's error names a missing column by the index that it was asked for. So a moved AIR counts its columns from
/// `columns` on, and the builder needn't know of the move.
pub trait MovableConstraints<AB: AirBuilder>: PlainAir<AB::F> {
    /// Asserts the AIR's own constraints under the condition, with column i of the main trace read as column `columns`
    /// + i. Public values and the other leaves don't move.
    fn assert_moved<K: Condition<AB>>(
        &self,
        columns: usize,
        builder: &mut AB,
        condition: &K,
    ) -> AirResult
        requires ready { AB.ready builder.old }
        requires within { columns < 2 ^ 63 }
        requires usable { AlwaysAfter AB.kept (λ b. ⊤ × K.usable condition.now b) builder.old }
        ensures { AssertedIn ⟦<AB as View>⟧.view builder.old builder.new result
            (move_columns_under (K.under condition.now) (K.ext_under condition.now) columns
            (Self.plain self.now).0) };
}

/// The constraints of an AIR on columns further right: its column i is column `columns` + i.
#[derive(Drop)]
pub struct Moved<A> {
    pub columns: usize,
    pub air: A,
    pub ghost fits: { columns < 2 ^ 63 },
}

impl<AB: AirBuilder, A: MovableConstraints<AB>> Constraint<AB> for Moved<A> {
    ghost asserts = { λ s f g. move_columns_under f g s.columns (A.plain s.air).0 };

    fn assert_under<K: Condition<AB>>(&self, builder: &mut AB, condition: &K) -> AirResult {
        self.air.assert_moved(self.columns, builder, condition)
    }
}
