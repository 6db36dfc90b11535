//! Rings of expressions, described by the terms that their elements mean.
ghost use Rattle.std.specs.Prelude.{◌≡◌, ◌↔◌, IsTrue, IfOk, IfErr, All};
ghost use Rattle.air_field.specs.declared.errors.RingError.{RingError};
ghost use Rattle.air_field.specs.Term.{Term, const_term, add_term, sub_term, neg_term, mul_term};
ghost use Rattle.air_field.specs.Algebra.{AlgebraLaws, Made, MadeOf, MadeOfBoth, RefusedOf, RefusedOfBoth, double_term, bool_check_term, xor_term, andn_term, scaled_term};
ghost use Rattle.air_field.specs.Joins.{MadeOfAll, RefusedOfAll};
ghost use Rattle.air_field.specs.Powers.{power};

use crate::errors::RingError;
use crate::fields::field::Field;
use crate::fields::power::power_of;

/// A ring whose elements are made by calls, as in an arena: values of `Elem` are handles. A handle stays valid and
/// keeps its meaning, whatever is made later. The calls take only handles of this ring; [`contains`](Algebra::contains)
/// checks that.
///
/// These are calls and not operators, because making an element may allocate.
pub trait Algebra<F: Field> {
    /// The ring's elements.
    type Elem: Copy;

    /// The ring is in a state that its calls can reach.
    ghost valid: { Self → Type 0 };

    /// A handle is an element of the ring.
    ghost has: { Self → Self.Elem → Type 0 };

    /// An element means a term.
    ghost means: { Self → Self.Elem → Term F → Type 0 };

    /// The second ring keeps every meaning of the first.
    ghost extends: { Self → Self → Type 0 };

    /// Making an element that means this term may fail with this error.
    ghost refuses: { RingError → Term F → Type 0 };

    /// Whether `x` is an element of this ring.
    fn contains(&self, x: Self::Elem) -> bool
        requires { valid self.now }
        ensures { IsTrue result ↔ has self.now x };

    /// The element of a constant.
    fn constant(&mut self, c: F) -> Result<Self::Elem, RingError>
        requires { valid self.old }
        ensures extended { extends self.old self.new }
        ensures made { IfOk result (Made has means (const_term c) self.new) }
        ensures refused { IfErr result (λ e. refuses e (const_term c)) };

    /// x + y
    fn add(&mut self, x: Self::Elem, y: Self::Elem) -> Result<Self::Elem, RingError>
        requires x_in { has self.old x }
        requires y_in { has self.old y }
        ensures extended { extends self.old self.new }
        ensures made { IfOk result (MadeOfBoth has means add_term self.old self.new x y) }
        ensures refused { IfErr result (RefusedOfBoth means refuses add_term self.old x y) };

    /// x - y
    fn sub(&mut self, x: Self::Elem, y: Self::Elem) -> Result<Self::Elem, RingError>
        requires x_in { has self.old x }
        requires y_in { has self.old y }
        ensures extended { extends self.old self.new }
        ensures made { IfOk result (MadeOfBoth has means sub_term self.old self.new x y) }
        ensures refused { IfErr result (RefusedOfBoth means refuses sub_term self.old x y) };

    /// -x
    fn neg(&mut self, x: Self::Elem) -> Result<Self::Elem, RingError>
        requires { has self.old x }
        ensures extended { extends self.old self.new }
        ensures made { IfOk result (MadeOf has means neg_term self.old self.new x) }
        ensures refused { IfErr result (RefusedOf means refuses neg_term self.old x) };

    /// x y
    fn mul(&mut self, x: Self::Elem, y: Self::Elem) -> Result<Self::Elem, RingError>
        requires x_in { has self.old x }
        requires y_in { has self.old y }
        ensures extended { extends self.old self.new }
        ensures made { IfOk result (MadeOfBoth has means mul_term self.old self.new x y) }
        ensures refused { IfErr result (RefusedOfBoth means refuses mul_term self.old x y) };

    /// `condition * x`, for assertions under a condition. A condition is mostly a selector, which is 0 or 1 at each
    /// row. A ring of values can test for that and skip the multiplication.
    fn gate(&mut self, condition: Self::Elem, x: Self::Elem) -> Result<Self::Elem, RingError>
        requires condition_in { has self.old condition }
        requires x_in { has self.old x }
        ensures extended { extends self.old self.new }
        ensures made { IfOk result (MadeOfBoth has means mul_term self.old self.new condition x) }
        ensures refused { IfErr result (RefusedOfBoth means refuses mul_term self.old condition
            x) }
    {
        self.mul(condition, x)
    }

    /// x + x
    fn double(&mut self, x: Self::Elem) -> Result<Self::Elem, RingError>
        requires { has self.old x }
        ensures extended { extends self.old self.new }
        ensures made { IfOk result (MadeOf has means double_term self.old self.new x) }
        ensures refused { IfErr result (RefusedOf means refuses double_term self.old x) }
    {
        self.add(x, x)
    }

    /// x (x - 1)
    fn bool_check(&mut self, x: Self::Elem) -> Result<Self::Elem, RingError>
        requires { has self.old x }
        ensures extended { extends self.old self.new }
        ensures made { IfOk result (MadeOf has means (bool_check_term F.ONE) self.old self.new x) }
        ensures refused { IfErr result (RefusedOf means refuses (bool_check_term F.ONE) self.old
            x) }
    {
        let one = self.constant(F::ONE)?;
        let less = self.sub(x, one)?;
        self.mul(x, less)
    }

    /// (x + y) - 2xy
    fn xor(&mut self, x: Self::Elem, y: Self::Elem) -> Result<Self::Elem, RingError>
        requires x_in { has self.old x }
        requires y_in { has self.old y }
        ensures extended { extends self.old self.new }
        ensures made { IfOk result (MadeOfBoth has means xor_term self.old self.new x y) }
        ensures refused { IfErr result (RefusedOfBoth means refuses xor_term self.old x y) }
    {
        let sum = self.add(x, y)?;
        let product = self.mul(x, y)?;
        let twice = self.double(product)?;
        self.sub(sum, twice)
    }

    /// (1 - x) y
    fn andn(&mut self, x: Self::Elem, y: Self::Elem) -> Result<Self::Elem, RingError>
        requires x_in { has self.old x }
        requires y_in { has self.old y }
        ensures extended { extends self.old self.new }
        ensures made { IfOk result (MadeOfBoth has means (andn_term F.ONE) self.old self.new x y) }
        ensures refused { IfErr result (RefusedOfBoth means refuses (andn_term F.ONE) self.old x
            y) }
    {
        let one = self.constant(F::ONE)?;
        let rest = self.sub(one, x)?;
        self.mul(rest, y)
    }

    /// x times the constant 2^k
    fn mul_2exp_u64(&mut self, x: Self::Elem, k: u64) -> Result<Self::Elem, RingError>
        requires { has self.old x }
        ensures extended { extends self.old self.new }
        ensures made { IfOk result (MadeOf has means (scaled_term (power F.ring F.TWO k)) self.old
            self.new x) }
        ensures refused { IfErr result (RefusedOf means refuses
            (scaled_term (power F.ring F.TWO k)) self.old x) }
    {
        let scale = self.constant(power_of(F::TWO, k))?;
        self.mul(x, scale)
    }

    /// The sum, added from the left; 0 for the empty list.
    fn sum(&mut self, xs: &[Self::Elem]) -> Result<Self::Elem, RingError>
        requires valid { valid self.old }
        requires all_in { All (has self.old) xs.now }
        ensures extended { extends self.old self.new }
        ensures made { IfOk result (MadeOfAll has means add_term F.ZERO self.old self.new xs.now) }
        ensures refused { IfErr result (RefusedOfAll means refuses add_term F.ZERO self.old
            xs.now) }
    {
        let [first, rest @ ..] = xs else {
            return self.constant(F::ZERO);
        };
        let mut total = *first;
        for x in rest {
            total = self.add(total, *x)?;
        }
        Ok(total)
    }

    /// The product, multiplied from the left; 1 for the empty list.
    fn product(&mut self, xs: &[Self::Elem]) -> Result<Self::Elem, RingError>
        requires valid { valid self.old }
        requires all_in { All (has self.old) xs.now }
        ensures extended { extends self.old self.new }
        ensures made { IfOk result (MadeOfAll has means mul_term F.ONE self.old self.new xs.now) }
        ensures refused { IfErr result (RefusedOfAll means refuses mul_term F.ONE self.old xs.now) }
    {
        let [first, rest @ ..] = xs else {
            return self.constant(F::ONE);
        };
        let mut total = *first;
        for x in rest {
            total = self.mul(total, *x)?;
        }
        Ok(total)
    }

    ghost laws: { AlgebraLaws valid has means extends refuses };
}

/// A ring that can make elements from variables of type `V`.
pub trait FromVar<F: Field, V>: Algebra<F> {
    /// A variable means a term.
    ghost var_means: { V → Term F → Type 0 };

    /// The element of a variable.
    fn from_var(&mut self, v: V) -> Result<Self::Elem, RingError>
        requires { Self.valid self.old }
        ensures extended { Self.extends self.old self.new }
        ensures made { IfOk result (λ z. Self.has self.new z
            × ((t : Term F) → var_means v t → Self.means self.new z t)) }
        ensures refused { IfErr result (λ e. (t : Term F) → var_means v t → Self.refuses e t) };

    ghost var_means_some: { (v : V) → (t : Term F) × var_means v t };
}
