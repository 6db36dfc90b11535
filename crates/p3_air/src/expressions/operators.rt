//! Operators on expressions and whole numbers.
ghost use Rattle.p3_air.specs.HandleSteps.{Joins, Makes};
ghost use Rattle.air_draft.specs.declared.step.Operand.TheVariants.{Step as Earlier, Number as Whole};
ghost use Rattle.air_draft.specs.declared.step.Step.TheVariants.{Add as Sum, Sub as Difference, Mul as Product, Neg as Negative};

use crate::expressions::expr::joined;
use crate::expressions::view::Node;
use air_draft::{Operand, Step};
use std::ops::{Add, AddAssign, Mul, MulAssign, Neg, Sub, SubAssign};

impl<'a> Add<&'a Node> for &'a Node {
    type Output = &'a Node;

    fn add(self, other: &'a Node) -> &'a Node
        ensures { Joins (λ x y. Sum (Earlier x) (Earlier y)) self.now other.now result.now }
    {
        match joined(self, other) {
            Ok((expressions, x, y)) => {
                expressions.write(Step::Add(Operand::Step(x), Operand::Step(y)))
            }
            Err(none) => none,
        }
    }
}

impl<'a> Add<u64> for &'a Node {
    type Output = &'a Node;

    fn add(self, n: u64) -> &'a Node
        ensures { Makes (λ x. Sum (Earlier x) (Whole n)) self.now result.now }
    {
        match self.entry() {
            Some((expressions, x)) => {
                expressions.write(Step::Add(Operand::Step(x.index()), Operand::Number(n)))
            }
            None => self,
        }
    }
}

impl<'a> Add<&'a Node> for u64 {
    type Output = &'a Node;

    fn add(self, y: &'a Node) -> &'a Node
        ensures { Makes (λ x. Sum (Whole self) (Earlier x)) y.now result.now }
    {
        match y.entry() {
            Some((expressions, y)) => {
                expressions.write(Step::Add(Operand::Number(self), Operand::Step(y.index())))
            }
            None => y,
        }
    }
}

impl<'a> AddAssign<&'a Node> for &'a Node {
    fn add_assign(&mut self, other: &'a Node)
        ensures { Joins (λ x y. Sum (Earlier x) (Earlier y)) self.old.now other.now self.new.now }
    {
        *self = *self + other;
    }
}

impl<'a> Sub<&'a Node> for &'a Node {
    type Output = &'a Node;

    fn sub(self, other: &'a Node) -> &'a Node
        ensures { Joins (λ x y. Difference (Earlier x) (Earlier y)) self.now other.now result.now }
    {
        match joined(self, other) {
            Ok((expressions, x, y)) => {
                expressions.write(Step::Sub(Operand::Step(x), Operand::Step(y)))
            }
            Err(none) => none,
        }
    }
}

impl<'a> Sub<u64> for &'a Node {
    type Output = &'a Node;

    fn sub(self, n: u64) -> &'a Node
        ensures { Makes (λ x. Difference (Earlier x) (Whole n)) self.now result.now }
    {
        match self.entry() {
            Some((expressions, x)) => {
                expressions.write(Step::Sub(Operand::Step(x.index()), Operand::Number(n)))
            }
            None => self,
        }
    }
}

impl<'a> Sub<&'a Node> for u64 {
    type Output = &'a Node;

    fn sub(self, y: &'a Node) -> &'a Node
        ensures { Makes (λ x. Difference (Whole self) (Earlier x)) y.now result.now }
    {
        match y.entry() {
            Some((expressions, y)) => {
                expressions.write(Step::Sub(Operand::Number(self), Operand::Step(y.index())))
            }
            None => y,
        }
    }
}

impl<'a> SubAssign<&'a Node> for &'a Node {
    fn sub_assign(&mut self, other: &'a Node)
        ensures { Joins (λ x y. Difference (Earlier x) (Earlier y)) self.old.now other.now
            self.new.now }
    {
        *self = *self - other;
    }
}

impl<'a> Mul<&'a Node> for &'a Node {
    type Output = &'a Node;

    fn mul(self, other: &'a Node) -> &'a Node
        ensures { Joins (λ x y. Product (Earlier x) (Earlier y)) self.now other.now result.now }
    {
        match joined(self, other) {
            Ok((expressions, x, y)) => {
                expressions.write(Step::Mul(Operand::Step(x), Operand::Step(y)))
            }
            Err(none) => none,
        }
    }
}

impl<'a> Mul<u64> for &'a Node {
    type Output = &'a Node;

    fn mul(self, n: u64) -> &'a Node
        ensures { Makes (λ x. Product (Earlier x) (Whole n)) self.now result.now }
    {
        match self.entry() {
            Some((expressions, x)) => {
                expressions.write(Step::Mul(Operand::Step(x.index()), Operand::Number(n)))
            }
            None => self,
        }
    }
}

impl<'a> Mul<&'a Node> for u64 {
    type Output = &'a Node;

    fn mul(self, y: &'a Node) -> &'a Node
        ensures { Makes (λ x. Product (Whole self) (Earlier x)) y.now result.now }
    {
        match y.entry() {
            Some((expressions, y)) => {
                expressions.write(Step::Mul(Operand::Number(self), Operand::Step(y.index())))
            }
            None => y,
        }
    }
}

impl<'a> MulAssign<&'a Node> for &'a Node {
    fn mul_assign(&mut self, other: &'a Node)
        ensures { Joins (λ x y. Product (Earlier x) (Earlier y)) self.old.now other.now
            self.new.now }
    {
        *self = *self * other;
    }
}

impl<'a> Neg for &'a Node {
    type Output = &'a Node;

    fn neg(self) -> &'a Node
        ensures { Makes Negative self.now result.now }
    {
        match self.entry() {
            Some((expressions, x)) => expressions.write(Step::Neg(x.index())),
            None => self,
        }
    }
}
