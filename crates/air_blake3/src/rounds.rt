//! The rounds, each from one state to the next.
ghost use Rattle.std.specs.Prelude.{◌≡◌, ◌+◌, ◌*◌, ◌<◌};
ghost use Rattle.air_blake3.specs.Words.{state_of};
ghost use Rattle.air_blake3.specs.Row.{columns_asserts, round_at};

use crate::columns::{eight_from, state_at};
use crate::mixing::Mix;
use air_author::{AirResult, Condition, Constraint, Family};
use air_builder::AirBuilder;
use blake3::State;

/// The state `after` is G on each column of `before`, with the state `middle` in between and eight words of the
/// message.
#[derive(Clone, Copy, Drop)]
struct Columns {
    before: State,
    message: [u32; 8],
    middle: State,
    after: State,
}

impl<AB: AirBuilder> Constraint<AB> for Columns {
    ghost asserts = { λ s f _. columns_asserts AB.F.ring f (state_of s.before) s.message
        (state_of s.middle) (state_of s.after) };

    #[tactic(auto, unfolding(crate::specs::Row::columns_asserts))]
    fn assert_under<K: Condition<AB>>(&self, builder: &mut AB, condition: &K) -> AirResult {
        let (before, m, middle, after) = (self.before, self.message, self.middle, self.after);
        let g0 = Mix {
            before: before.q0,
            first: m[0],
            second: m[1],
            middle: middle.q0,
            after: after.q0,
        };
        let g1 = Mix {
            before: before.q1,
            first: m[2],
            second: m[3],
            middle: middle.q1,
            after: after.q1,
        };
        let g2 = Mix {
            before: before.q2,
            first: m[4],
            second: m[5],
            middle: middle.q2,
            after: after.q2,
        };
        let g3 = Mix {
            before: before.q3,
            first: m[6],
            second: m[7],
            middle: middle.q3,
            after: after.q3,
        };
        (g0, g1, g2, g3).assert_under(builder, condition)
    }
}

/// The rounds, from one state to the next.
#[derive(Clone, Copy, Drop)]
pub(crate) struct Rounds {}

impl<AB: AirBuilder> Family<AB> for Rounds {
    ghost size = { λ _. 7 };

    ghost asserts_at = { λ _ r f _. round_at AB.F.ring f r };

    fn size(&self) -> usize {
        7
    }

    #[tactic(auto, unfolding(crate::specs::Row::round_at))]
    fn assert_at<K: Condition<AB>>(
        &self,
        index: usize,
        builder: &mut AB,
        condition: &K,
    ) -> AirResult {
        let first = 640 + 1088 * index as u32;
        let columns = Columns {
            before: state_at(first).from_diagonals(),
            message: eight_from(index, 0),
            middle: state_at(first + 272),
            after: state_at(first + 544),
        };
        let diagonals = Columns {
            before: state_at(first + 544).diagonals(),
            message: eight_from(index, 8),
            middle: state_at(first + 816),
            after: state_at(first + 1088),
        };
        (columns, diagonals).assert_under(builder, condition)
    }
}
