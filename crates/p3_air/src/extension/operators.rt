//! Operators on expressions over an extension, with base expressions and whole numbers on either side.
use crate::expressions::view::{Expr, Node};
use crate::extension::expr::ExtExpr;
use air_draft::ExtStep;
use air_field::{ExtensionField, Field};
use std::ops::{Add, AddAssign, Mul, MulAssign, Neg, Sub, SubAssign};

impl<'a, F: Field, EF: ExtensionField<F>> Add<ExtExpr<'a, F, EF>> for ExtExpr<'a, F, EF> {
    type Output = ExtExpr<'a, F, EF>;

    fn add(self, other: ExtExpr<'a, F, EF>) -> ExtExpr<'a, F, EF> {
        let y = self.own(other);
        self.step(ExtStep::Add(self.number, y))
    }
}

impl<'a, F: Field, EF: ExtensionField<F>> Add<&'a Node> for ExtExpr<'a, F, EF> {
    type Output = ExtExpr<'a, F, EF>;

    fn add(self, x: Expr<'a>) -> ExtExpr<'a, F, EF> {
        let y = self.lifted(x);
        self.step(ExtStep::Add(self.number, y.number))
    }
}

impl<'a, F: Field, EF: ExtensionField<F>> Add<ExtExpr<'a, F, EF>> for &'a Node {
    type Output = ExtExpr<'a, F, EF>;

    fn add(self, y: ExtExpr<'a, F, EF>) -> ExtExpr<'a, F, EF> {
        let x = y.lifted(self);
        y.step(ExtStep::Add(x.number, y.number))
    }
}

impl<'a, F: Field, EF: ExtensionField<F>> Add<u64> for ExtExpr<'a, F, EF> {
    type Output = ExtExpr<'a, F, EF>;

    fn add(self, n: u64) -> ExtExpr<'a, F, EF> {
        let y = self.of_number(n);
        self.step(ExtStep::Add(self.number, y.number))
    }
}

impl<'a, F: Field, EF: ExtensionField<F>> Add<ExtExpr<'a, F, EF>> for u64 {
    type Output = ExtExpr<'a, F, EF>;

    fn add(self, y: ExtExpr<'a, F, EF>) -> ExtExpr<'a, F, EF> {
        let x = y.of_number(self);
        y.step(ExtStep::Add(x.number, y.number))
    }
}

impl<'a, F: Field, EF: ExtensionField<F>> AddAssign<ExtExpr<'a, F, EF>> for ExtExpr<'a, F, EF> {
    fn add_assign(&mut self, other: ExtExpr<'a, F, EF>) {
        let sum = *self + other;
        self.number = sum.number;
    }
}

impl<'a, F: Field, EF: ExtensionField<F>> AddAssign<&'a Node> for ExtExpr<'a, F, EF> {
    fn add_assign(&mut self, x: Expr<'a>) {
        let sum = *self + x;
        self.number = sum.number;
    }
}

impl<'a, F: Field, EF: ExtensionField<F>> AddAssign<u64> for ExtExpr<'a, F, EF> {
    fn add_assign(&mut self, n: u64) {
        let sum = *self + n;
        self.number = sum.number;
    }
}

impl<'a, F: Field, EF: ExtensionField<F>> Sub<ExtExpr<'a, F, EF>> for ExtExpr<'a, F, EF> {
    type Output = ExtExpr<'a, F, EF>;

    fn sub(self, other: ExtExpr<'a, F, EF>) -> ExtExpr<'a, F, EF> {
        let y = self.own(other);
        self.step(ExtStep::Sub(self.number, y))
    }
}

impl<'a, F: Field, EF: ExtensionField<F>> Sub<&'a Node> for ExtExpr<'a, F, EF> {
    type Output = ExtExpr<'a, F, EF>;

    fn sub(self, x: Expr<'a>) -> ExtExpr<'a, F, EF> {
        let y = self.lifted(x);
        self.step(ExtStep::Sub(self.number, y.number))
    }
}

impl<'a, F: Field, EF: ExtensionField<F>> Sub<ExtExpr<'a, F, EF>> for &'a Node {
    type Output = ExtExpr<'a, F, EF>;

    fn sub(self, y: ExtExpr<'a, F, EF>) -> ExtExpr<'a, F, EF> {
        let x = y.lifted(self);
        y.step(ExtStep::Sub(x.number, y.number))
    }
}

impl<'a, F: Field, EF: ExtensionField<F>> Sub<u64> for ExtExpr<'a, F, EF> {
    type Output = ExtExpr<'a, F, EF>;

    fn sub(self, n: u64) -> ExtExpr<'a, F, EF> {
        let y = self.of_number(n);
        self.step(ExtStep::Sub(self.number, y.number))
    }
}

impl<'a, F: Field, EF: ExtensionField<F>> Sub<ExtExpr<'a, F, EF>> for u64 {
    type Output = ExtExpr<'a, F, EF>;

    fn sub(self, y: ExtExpr<'a, F, EF>) -> ExtExpr<'a, F, EF> {
        let x = y.of_number(self);
        y.step(ExtStep::Sub(x.number, y.number))
    }
}

impl<'a, F: Field, EF: ExtensionField<F>> SubAssign<ExtExpr<'a, F, EF>> for ExtExpr<'a, F, EF> {
    fn sub_assign(&mut self, other: ExtExpr<'a, F, EF>) {
        let difference = *self - other;
        self.number = difference.number;
    }
}

impl<'a, F: Field, EF: ExtensionField<F>> SubAssign<&'a Node> for ExtExpr<'a, F, EF> {
    fn sub_assign(&mut self, x: Expr<'a>) {
        let difference = *self - x;
        self.number = difference.number;
    }
}

impl<'a, F: Field, EF: ExtensionField<F>> SubAssign<u64> for ExtExpr<'a, F, EF> {
    fn sub_assign(&mut self, n: u64) {
        let difference = *self - n;
        self.number = difference.number;
    }
}

impl<'a, F: Field, EF: ExtensionField<F>> Mul<ExtExpr<'a, F, EF>> for ExtExpr<'a, F, EF> {
    type Output = ExtExpr<'a, F, EF>;

    fn mul(self, other: ExtExpr<'a, F, EF>) -> ExtExpr<'a, F, EF> {
        let y = self.own(other);
        self.step(ExtStep::Mul(self.number, y))
    }
}

impl<'a, F: Field, EF: ExtensionField<F>> Mul<&'a Node> for ExtExpr<'a, F, EF> {
    type Output = ExtExpr<'a, F, EF>;

    fn mul(self, x: Expr<'a>) -> ExtExpr<'a, F, EF> {
        let y = self.lifted(x);
        self.step(ExtStep::Mul(self.number, y.number))
    }
}

impl<'a, F: Field, EF: ExtensionField<F>> Mul<ExtExpr<'a, F, EF>> for &'a Node {
    type Output = ExtExpr<'a, F, EF>;

    fn mul(self, y: ExtExpr<'a, F, EF>) -> ExtExpr<'a, F, EF> {
        let x = y.lifted(self);
        y.step(ExtStep::Mul(x.number, y.number))
    }
}

impl<'a, F: Field, EF: ExtensionField<F>> Mul<u64> for ExtExpr<'a, F, EF> {
    type Output = ExtExpr<'a, F, EF>;

    fn mul(self, n: u64) -> ExtExpr<'a, F, EF> {
        let y = self.of_number(n);
        self.step(ExtStep::Mul(self.number, y.number))
    }
}

impl<'a, F: Field, EF: ExtensionField<F>> Mul<ExtExpr<'a, F, EF>> for u64 {
    type Output = ExtExpr<'a, F, EF>;

    fn mul(self, y: ExtExpr<'a, F, EF>) -> ExtExpr<'a, F, EF> {
        let x = y.of_number(self);
        y.step(ExtStep::Mul(x.number, y.number))
    }
}

impl<'a, F: Field, EF: ExtensionField<F>> MulAssign<ExtExpr<'a, F, EF>> for ExtExpr<'a, F, EF> {
    fn mul_assign(&mut self, other: ExtExpr<'a, F, EF>) {
        let product = *self * other;
        self.number = product.number;
    }
}

impl<'a, F: Field, EF: ExtensionField<F>> MulAssign<&'a Node> for ExtExpr<'a, F, EF> {
    fn mul_assign(&mut self, x: Expr<'a>) {
        let product = *self * x;
        self.number = product.number;
    }
}

impl<'a, F: Field, EF: ExtensionField<F>> MulAssign<u64> for ExtExpr<'a, F, EF> {
    fn mul_assign(&mut self, n: u64) {
        let product = *self * n;
        self.number = product.number;
    }
}

impl<'a, F: Field, EF: ExtensionField<F>> Neg for ExtExpr<'a, F, EF> {
    type Output = ExtExpr<'a, F, EF>;

    fn neg(self) -> ExtExpr<'a, F, EF> {
        self.step(ExtStep::Neg(self.number))
    }
}
