//! Sums of words.
ghost use Rattle.std.specs.Prelude.{◌++◌, true, false};
ghost use Rattle.air_field.specs.Algebra.{scaled_term};
ghost use Rattle.air_field.specs.Ring.{image};
ghost use Rattle.air_builder.specs.Notation.{is_zero};
ghost use Rattle.air_gadgets.specs.Gadgets.{less_two_term, less_three_term, raised_term, carry_term, times_raised_term, whole_term, carried_terms, add2_terms, add3_terms};
ghost use Rattle.air_builder.specs.Batches.{AssertedIn};
ghost use Rattle.air_author.specs.Expressions.{AlwaysAfter, MakesBothIn};
ghost use Rattle.air_gadgets.specs.WordTerms.{limbs, all_vanish};

use air_author::{
    AirResult, Already, Condition, Constraint, Expression, Less, Number, Zero, make_difference,
    make_product, make_sum,
};
use air_builder::{AirBuilder, View};

// Operands are passed by reference, to types that keep references. Operations on references, such as Difference<&X,
// &Y>, would do, but each use takes seconds longer to prove.

/// The lower and the upper 16 bits of a word.
#[derive(Clone, Copy, Drop)]
pub struct Word<X>(pub X, pub X);

/// x - y - z
#[derive(Drop)]
struct LessTwo<'a, X, Y, Z>(&'a X, &'a Y, &'a Z);

impl<'a, AB: AirBuilder, X: Expression<AB>, Y: Expression<AB>, Z: Expression<AB>> Expression<AB>
    for LessTwo<'a, X, Y, Z> {
    ghost term = { λ s. less_two_term (X.term s.0.now) (Y.term s.1.now) (Z.term s.2.now) };

    ghost usable = { λ s b. X.usable s.0.now b × (Y.usable s.1.now b × Z.usable s.2.now b) };

    fn make(&self, builder: &mut AB) -> AirResult<AB::Expr> {
        make_difference(builder, &Less(self.0, self.1), self.2)
    }
}

/// 2^16 x
#[derive(Drop)]
struct Scaled<'a, X>(&'a X);

impl<'a, AB: AirBuilder, X: Expression<AB>> Expression<AB> for Scaled<'a, X> {
    ghost term = { λ s. scaled_term (image AB.F.ring 65536) (X.term s.0.now) };

    ghost usable = { λ s b. X.usable s.0.now b };

    fn make(&self, builder: &mut AB) -> AirResult<AB::Expr> {
        make_product(builder, self.0, &Number(65536))
    }
}

/// low + 2^16 high
#[derive(Drop)]
struct Whole<'a, X, Y>(&'a X, &'a Y);

impl<'a, AB: AirBuilder, X: Expression<AB>, Y: Expression<AB>> Expression<AB> for Whole<'a, X, Y> {
    ghost term = { λ s. whole_term AB.F.ring (X.term s.0.now) (Y.term s.1.now) };

    ghost usable = { λ s b. X.usable s.0.now b × Y.usable s.1.now b };

    fn make(&self, builder: &mut AB) -> AirResult<AB::Expr> {
        make_sum(builder, self.0, &Scaled(self.1))
    }
}

/// x + n
#[derive(Drop)]
struct Raised<'a, X>(&'a X, u64);

impl<'a, AB: AirBuilder, X: Expression<AB>> Expression<AB> for Raised<'a, X> {
    ghost term = { λ s. raised_term AB.F.ring s.1 (X.term s.0.now) };

    ghost usable = { λ s b. X.usable s.0.now b };

    fn make(&self, builder: &mut AB) -> AirResult<AB::Expr> {
        make_sum(builder, self.0, &Number(self.1))
    }
}

/// x (x + n)
#[derive(Drop)]
struct Carry<'a, X>(&'a X, u64);

impl<'a, AB: AirBuilder, X: Expression<AB>> Expression<AB> for Carry<'a, X> {
    ghost term = { λ s. carry_term AB.F.ring s.1 (X.term s.0.now) };

    ghost usable = { λ s b. X.usable s.0.now b };

    fn make(&self, builder: &mut AB) -> AirResult<AB::Expr> {
        make_product(builder, self.0, &Raised(self.0, self.1))
    }
}

/// Asserts that x is zero under the condition.
fn assert_zero<AB: AirBuilder, X: Expression<AB>, K: Condition<AB>>(
    builder: &mut AB,
    condition: &K,
    x: &X,
) -> AirResult
    requires ready { AB.ready builder.old }
    requires usable { AlwaysAfter AB.kept (λ b. X.usable x.now b × K.usable condition.now b)
        builder.old }
    ensures { AssertedIn ⟦<AB as View>⟧.view builder.old builder.new result
        (is_zero (K.under condition.now (X.term x.now))) }
{
    Zero(x).assert_under(builder, condition)
}

/// Asserts that both are zero under the condition, in order.
fn assert_both_zero<AB: AirBuilder, X: Expression<AB>, Y: Expression<AB>, K: Condition<AB>>(
    builder: &mut AB,
    condition: &K,
    x: &X,
    y: &Y,
) -> AirResult
    requires ready { AB.ready builder.old }
    requires usable { AlwaysAfter AB.kept
        (λ b. (X.usable x.now b × Y.usable y.now b) × K.usable condition.now b) builder.old }
    ensures { AssertedIn ⟦<AB as View>⟧.view builder.old builder.new result
        (is_zero (K.under condition.now (X.term x.now)) ++
        is_zero (K.under condition.now (Y.term y.now))) }
{
    assert_zero(builder, condition, x)?;
    assert_zero(builder, condition, y)
}

/// Makes low, and low + 2^16 high, each once.
fn make_low_and_whole<AB: AirBuilder, X: Expression<AB>, Y: Expression<AB>>(
    builder: &mut AB,
    low: &X,
    high: &Y,
) -> AirResult<(AB::Expr, AB::Expr)>
    requires ready { AB.ready builder.old }
    requires usable { AlwaysAfter AB.kept (λ b. X.usable low.now b × Y.usable high.now b)
        builder.old }
    ensures { MakesBothIn ⟦<AB as View>⟧.view builder.old builder.new result (X.term low.now)
        (whole_term AB.F.ring (X.term low.now) (Y.term high.now)) }
{
    let made = low.make(builder)?;
    let whole = Whole(&Already(made, low), high).make(builder)?;
    Ok((made, whole))
}

/// Asserts that low + 2^16 high and low are zero up to a carry.
fn assert_zero_but_carry<AB: AirBuilder, X: Expression<AB>, Y: Expression<AB>, K: Condition<AB>>(
    builder: &mut AB,
    condition: &K,
    low: &X,
    high: &Y,
) -> AirResult
    requires ready { AB.ready builder.old }
    requires usable { AlwaysAfter AB.kept
        (λ b. (X.usable low.now b × Y.usable high.now b) × K.usable condition.now b)
        builder.old }
    ensures { AssertedIn ⟦<AB as View>⟧.view builder.old builder.new result
        (all_vanish (K.under condition.now) (carried_terms AB.F.ring false (X.term low.now)
        (Y.term high.now))) }
{
    let (made, made_whole) = make_low_and_whole(builder, low, high)?;
    let whole = Already(made_whole, Whole(low, high));
    assert_both_zero(
        builder,
        condition,
        &Carry(&whole, 4294967296),
        &Carry(&Already(made, low), 65536),
    )
}

/// The word a is b + c modulo 2^32, if each limb has 16 bits, which isn't asserted.
#[derive(Clone, Copy, Drop)]
pub struct Add2<X, Y, Z> {
    pub a: Word<X>,
    pub b: Word<Y>,
    pub c: Word<Z>,
}

impl<AB: AirBuilder, X: Expression<AB>, Y: Expression<AB>, Z: Expression<AB>> Constraint<AB>
    for Add2<X, Y, Z> {
    ghost asserts = { λ s f _. all_vanish f (add2_terms AB.F.ring
        (limbs (X.term s.a.0) (X.term s.a.1)) (limbs (Y.term s.b.0) (Y.term s.b.1))
        (limbs (Z.term s.c.0) (Z.term s.c.1))) };

    ghost usable = { λ s b. (X.usable s.a.0 b × (Y.usable s.b.0 b × Z.usable s.c.0 b))
        × (X.usable s.a.1 b × (Y.usable s.b.1 b × Z.usable s.c.1 b)) };

    fn assert_under<K: Condition<AB>>(&self, builder: &mut AB, condition: &K) -> AirResult {
        let low = LessTwo(&self.a.0, &self.b.0, &self.c.0);
        let high = LessTwo(&self.a.1, &self.b.1, &self.c.1);
        assert_zero_but_carry(builder, condition, &low, &high)
    }
}

/// x - y - z - w
#[derive(Drop)]
struct LessThree<'a, X, Y, Z, W>(&'a X, &'a Y, &'a Z, &'a W);

impl<
    'a,
    AB: AirBuilder,
    X: Expression<AB>,
    Y: Expression<AB>,
    Z: Expression<AB>,
    W: Expression<AB>,
> Expression<AB> for LessThree<'a, X, Y, Z, W> {
    ghost term = { λ s. less_three_term (X.term s.0.now) (Y.term s.1.now) (Z.term s.2.now)
        (W.term s.3.now) };

    ghost usable = { λ s b. X.usable s.0.now b × (Y.usable s.1.now b
        × (Z.usable s.2.now b × W.usable s.3.now b)) };

    fn make(&self, builder: &mut AB) -> AirResult<AB::Expr> {
        make_difference(builder, &LessTwo(self.0, self.1, self.2), self.3)
    }
}

/// x (x + n) (x + 2n); the fields are x, n and 2n
#[derive(Drop)]
struct TwoCarries<'a, X>(&'a X, u64, u64);

impl<'a, AB: AirBuilder, X: Expression<AB>> Expression<AB> for TwoCarries<'a, X> {
    ghost term = { λ s. times_raised_term AB.F.ring s.2 (X.term s.0.now)
        (carry_term AB.F.ring s.1 (X.term s.0.now)) };

    ghost usable = { λ s b. X.usable s.0.now b };

    fn make(&self, builder: &mut AB) -> AirResult<AB::Expr> {
        make_product(builder, &Carry(self.0, self.1), &Raised(self.0, self.2))
    }
}

/// Asserts that low + 2^16 high and low are zero up to two carries.
fn assert_zero_but_two_carries<
    AB: AirBuilder,
    X: Expression<AB>,
    Y: Expression<AB>,
    K: Condition<AB>,
>(builder: &mut AB, condition: &K, low: &X, high: &Y) -> AirResult
    requires ready { AB.ready builder.old }
    requires usable { AlwaysAfter AB.kept
        (λ b. (X.usable low.now b × Y.usable high.now b) × K.usable condition.now b)
        builder.old }
    ensures { AssertedIn ⟦<AB as View>⟧.view builder.old builder.new result
        (all_vanish (K.under condition.now) (carried_terms AB.F.ring true (X.term low.now)
        (Y.term high.now))) }
{
    let (made, made_whole) = make_low_and_whole(builder, low, high)?;
    let whole = Already(made_whole, Whole(low, high));
    assert_both_zero(
        builder,
        condition,
        &TwoCarries(&whole, 4294967296, 8589934592),
        &TwoCarries(&Already(made, low), 65536, 131072),
    )
}

/// The word a is b + c + d modulo 2^32, if each limb has 16 bits, which isn't asserted.
#[derive(Clone, Copy, Drop)]
pub struct Add3<X, Y, Z, W> {
    pub a: Word<X>,
    pub b: Word<Y>,
    pub c: Word<Z>,
    pub d: Word<W>,
}

impl<
    AB: AirBuilder,
    X: Expression<AB>,
    Y: Expression<AB>,
    Z: Expression<AB>,
    W: Expression<AB>,
> Constraint<AB> for Add3<X, Y, Z, W> {
    ghost asserts = { λ s f _. all_vanish f (add3_terms AB.F.ring
        (limbs (X.term s.a.0) (X.term s.a.1)) (limbs (Y.term s.b.0) (Y.term s.b.1))
        (limbs (Z.term s.c.0) (Z.term s.c.1)) (limbs (W.term s.d.0) (W.term s.d.1))) };

    ghost usable = { λ s b.
        (X.usable s.a.0 b × (Y.usable s.b.0 b × (Z.usable s.c.0 b × W.usable s.d.0 b)))
        × (X.usable s.a.1 b × (Y.usable s.b.1 b × (Z.usable s.c.1 b × W.usable s.d.1 b))) };

    fn assert_under<K: Condition<AB>>(&self, builder: &mut AB, condition: &K) -> AirResult {
        let low = LessThree(&self.a.0, &self.b.0, &self.c.0, &self.d.0);
        let high = LessThree(&self.a.1, &self.b.1, &self.c.1, &self.d.1);
        assert_zero_but_two_carries(builder, condition, &low, &high)
    }
}
