//! The limbs of a node's words, and its index.
ghost use Rattle.std.specs.Prelude.{◌≡◌, ◌<◌, ◌^◌};
ghost use Rattle.air_blake3_path.specs.Path.{index_asserts, limb_asserts};

use air_author::{
    AirResult, Boolean, Condition, Constraint, Current, Difference, Double, Equal, Family,
    FirstRow, LastRow, Next, Product, Public, Sum, Transition, When,
};
use air_builder::AirBuilder;
use air_gadgets::{Columns, PackedBits};

/// Whether the node is the right child.
const SIDE: usize = 9168;

/// The index of the node in its level.
const INDEX: usize = 9169;

/// The first of the sixteen limbs of the node's words.
const NODE: usize = 9170;

/// The sixteen bits from a column on, as a number.
fn limb(first: usize) -> PackedBits
    requires { first < 2 ^ 14 }
    ensures first { result.0.first ≡ first }
    ensures count { result.0.count ≡ 16 }
{
    PackedBits(Columns::new(first, 16))
}

/// The limbs of the nodes: each is that of a child on its row, the leaf's limbs and the root's are public, and the next
/// row's node is the output.
#[derive(Clone, Copy, Drop)]
pub(crate) struct Limbs {}

impl<AB: AirBuilder> Family<AB> for Limbs {
    ghost size = { λ _. 16 };

    ghost asserts_at = { λ _ i f _. limb_asserts AB.F.ring f i };

    fn size(&self) -> usize {
        16
    }

    #[tactic(auto, unfolding(crate::specs::Path::limb_asserts))]
    fn assert_at<K: Condition<AB>>(
        &self,
        index: usize,
        builder: &mut AB,
        condition: &K,
    ) -> AirResult {
        let (left, right) = (limb(16 * index), limb(256 + 16 * index));
        let output = limb(8656 + 16 * index);
        let node = Current(NODE + index);
        let child = Sum(left, Product(Current(SIDE), Difference(right, left)));
        let constraints = (
            Equal(node, child),
            When(FirstRow, Equal(Public(index), node)),
            When(Transition, Equal(Next(NODE + index), output)),
            When(LastRow, Equal(Public(16 + index), output)),
        );
        constraints.assert_under(builder, condition)
    }
}

/// The side is a bit, and the index is made of the sides from the last row back.
#[derive(Clone, Copy, Drop)]
pub(crate) struct Index {}

impl<AB: AirBuilder> Constraint<AB> for Index {
    ghost asserts = { λ _ f _. index_asserts AB.F.ring f };

    #[tactic(auto, unfolding(crate::specs::Path::index_asserts))]
    fn assert_under<K: Condition<AB>>(&self, builder: &mut AB, condition: &K) -> AirResult {
        let (side, index) = (Current(SIDE), Current(INDEX));
        let constraints = (
            Boolean(side),
            When(FirstRow, Equal(Public(32), index)),
            When(Transition, Equal(index, Sum(side, Double(Next(INDEX))))),
            When(LastRow, Equal(index, side)),
        );
        constraints.assert_under(builder, condition)
    }
}
