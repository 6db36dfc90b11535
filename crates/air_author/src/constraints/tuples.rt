//! Tuples of constraints, in order.
ghost use Rattle.std.specs.Prelude.{◌++◌, OnOk};
ghost use Rattle.air_builder.specs.Batches.{AssertedIn};
ghost use Rattle.air_author.specs.Constraints.{Then};
ghost use Rattle.air_author.specs.Expressions.{AlwaysAfter};

use crate::AirResult;
use crate::conditions::Condition;
use crate::constraints::Constraint;
use air_builder::{AirBuilder, View};

// Each length asserts its first constraint and passes the others on one by one. A tuple of references would be a type
// made of all of theirs, which takes long to prove.

/// Asserts both, in order.
#[inline(always)]
fn assert_two<AB: AirBuilder, C: Constraint<AB>, D: Constraint<AB>, K: Condition<AB>>(
    builder: &mut AB,
    condition: &K,
    c: &C,
    d: &D,
) -> AirResult
    requires ready { AB.ready builder.old }
    requires usable { AlwaysAfter AB.kept
        (λ b. (C.usable c.now b × D.usable d.now b) × K.usable condition.now b)
        builder.old }
    ensures asserted { let under = K.under condition.now in
        let ext_under = K.ext_under condition.now in
        AssertedIn ⟦<AB as View>⟧.view builder.old builder.new result
        (C.asserts c.now under ext_under ++ D.asserts d.now under ext_under) }
    ensures labelled { let under = K.under condition.now in
        let ext_under = K.ext_under condition.now in
        OnOk result (Then (C.labels c.now under ext_under)
        (D.labels d.now under ext_under) builder.old builder.new) }
{
    c.assert_under(builder, condition)?;
    d.assert_under(builder, condition)
}

/// Asserts all three, in order.
fn assert_three<
    AB: AirBuilder,
    C: Constraint<AB>,
    D: Constraint<AB>,
    E: Constraint<AB>,
    K: Condition<AB>,
>(builder: &mut AB, condition: &K, c: &C, d: &D, e: &E) -> AirResult
    requires ready { AB.ready builder.old }
    requires usable { AlwaysAfter AB.kept
        (λ b. (C.usable c.now b × (D.usable d.now b × E.usable e.now b))
        × K.usable condition.now b) builder.old }
    ensures asserted { let under = K.under condition.now in
        let ext_under = K.ext_under condition.now in
        AssertedIn ⟦<AB as View>⟧.view builder.old builder.new result
        (C.asserts c.now under ext_under ++ (D.asserts d.now under ext_under
        ++ E.asserts e.now under ext_under)) }
    ensures labelled { let under = K.under condition.now in
        let ext_under = K.ext_under condition.now in
        OnOk result (Then (C.labels c.now under ext_under)
        (Then (D.labels d.now under ext_under)
        (E.labels e.now under ext_under)) builder.old builder.new) }
{
    c.assert_under(builder, condition)?;
    assert_two(builder, condition, d, e)
}

/// Asserts all four, in order.
fn assert_four<
    AB: AirBuilder,
    C: Constraint<AB>,
    D: Constraint<AB>,
    E: Constraint<AB>,
    G: Constraint<AB>,
    K: Condition<AB>,
>(builder: &mut AB, condition: &K, c: &C, d: &D, e: &E, g: &G) -> AirResult
    requires ready { AB.ready builder.old }
    requires usable { AlwaysAfter AB.kept
        (λ b. (C.usable c.now b × (D.usable d.now b × (E.usable e.now b
        × G.usable g.now b))) × K.usable condition.now b) builder.old }
    ensures asserted { let under = K.under condition.now in
        let ext_under = K.ext_under condition.now in
        AssertedIn ⟦<AB as View>⟧.view builder.old builder.new result
        (C.asserts c.now under ext_under ++ (D.asserts d.now under ext_under
        ++ (E.asserts e.now under ext_under ++ G.asserts g.now under ext_under))) }
    ensures labelled { let under = K.under condition.now in
        let ext_under = K.ext_under condition.now in
        OnOk result (Then (C.labels c.now under ext_under)
        (Then (D.labels d.now under ext_under)
        (Then (E.labels e.now under ext_under)
        (G.labels g.now under ext_under))) builder.old builder.new) }
{
    c.assert_under(builder, condition)?;
    assert_three(builder, condition, d, e, g)
}

/// Both, in order.
impl<AB: AirBuilder, C: Constraint<AB>, D: Constraint<AB>> Constraint<AB> for (C, D) {
    ghost asserts = { λ s f g. C.asserts s.0 f g ++ D.asserts s.1 f g };

    ghost usable = { λ s b. C.usable s.0 b × D.usable s.1 b };

    ghost labels = { λ s f g. Then (C.labels s.0 f g) (D.labels s.1 f g) };

    #[inline(always)]
    fn assert_under<K: Condition<AB>>(&self, builder: &mut AB, condition: &K) -> AirResult {
        assert_two(builder, condition, &self.0, &self.1)
    }
}

/// All three, in order.
impl<AB: AirBuilder, C: Constraint<AB>, D: Constraint<AB>, E: Constraint<AB>> Constraint<AB>
    for (C, D, E) {
    ghost asserts = { λ s f g. C.asserts s.0 f g ++ (D.asserts s.1 f g ++ E.asserts s.2 f g) };

    ghost usable = { λ s b. C.usable s.0 b × (D.usable s.1 b × E.usable s.2 b) };

    ghost labels = { λ s f g. Then (C.labels s.0 f g)
        (Then (D.labels s.1 f g) (E.labels s.2 f g)) };

    #[inline(always)]
    fn assert_under<K: Condition<AB>>(&self, builder: &mut AB, condition: &K) -> AirResult {
        assert_three(builder, condition, &self.0, &self.1, &self.2)
    }
}

/// All four, in order.
impl<
    AB: AirBuilder,
    C: Constraint<AB>,
    D: Constraint<AB>,
    E: Constraint<AB>,
    G: Constraint<AB>,
> Constraint<AB> for (C, D, E, G) {
    ghost asserts = { λ s f g. C.asserts s.0 f g ++ (D.asserts s.1 f g
        ++ (E.asserts s.2 f g ++ G.asserts s.3 f g)) };

    ghost usable = { λ s b. C.usable s.0 b × (D.usable s.1 b
        × (E.usable s.2 b × G.usable s.3 b)) };

    ghost labels = { λ s f g. Then (C.labels s.0 f g)
        (Then (D.labels s.1 f g) (Then (E.labels s.2 f g) (G.labels s.3 f g))) };

    #[inline(always)]
    fn assert_under<K: Condition<AB>>(&self, builder: &mut AB, condition: &K) -> AirResult {
        assert_four(builder, condition, &self.0, &self.1, &self.2, &self.3)
    }
}

/// All five, in order.
impl<
    AB: AirBuilder,
    C: Constraint<AB>,
    D: Constraint<AB>,
    E: Constraint<AB>,
    G: Constraint<AB>,
    H: Constraint<AB>,
> Constraint<AB> for (C, D, E, G, H) {
    ghost asserts = { λ s f g. C.asserts s.0 f g ++ (D.asserts s.1 f g
        ++ (E.asserts s.2 f g ++ (G.asserts s.3 f g ++ H.asserts s.4 f g))) };

    ghost usable = { λ s b. C.usable s.0 b × (D.usable s.1 b
        × (E.usable s.2 b × (G.usable s.3 b × H.usable s.4 b))) };

    ghost labels = { λ s f g. Then (C.labels s.0 f g) (Then (D.labels s.1 f g)
        (Then (E.labels s.2 f g) (Then (G.labels s.3 f g) (H.labels s.4 f g)))) };

    #[inline(always)]
    fn assert_under<K: Condition<AB>>(&self, builder: &mut AB, condition: &K) -> AirResult {
        self.0.assert_under(builder, condition)?;
        assert_four(builder, condition, &self.1, &self.2, &self.3, &self.4)
    }
}
