//! Numbers by their bits, sums and products of several expressions.
use crate::expressions::columns::Columns;
use crate::expressions::nodes::Expressions;
use crate::expressions::view::Expr;
use crate::handles::claims::Claims;
use crate::handles::constraints::Constraints;

impl Expressions {
    /// The sum of 2^i times the i-th expression; 0 for none. Of bits it is the number that they pack, the lowest first.
    pub fn pack<'a>(&'a self, bits: &[Expr<'a>]) -> Expr<'a> {
        let mut packed = self.number(0);
        for bit in bits.iter().rev() {
            packed = packed.double() + *bit;
        }
        packed
    }

    /// The sum of expressions, from the left; 0 for none.
    pub fn sum<'a>(&'a self, xs: &[Expr<'a>]) -> Expr<'a> {
        let mut sum = self.number(0);
        for x in xs {
            sum += *x;
        }
        sum
    }

    /// The product of expressions, from the left; 1 for none.
    pub fn product<'a>(&'a self, xs: &[Expr<'a>]) -> Expr<'a> {
        let mut product = self.number(1);
        for x in xs {
            product *= *x;
        }
        product
    }
}

impl<'a> Constraints<'a> {
    /// Claims that each of `bits` is zero or one, and that `x` is the number that they pack, the lowest first.
    pub fn assert_bits(&mut self, x: Expr<'a>, bits: &[Expr<'a>]) {
        self.everywhere().assert_bits(x, bits);
    }
}

impl<'c, 'a> Claims<'c, 'a> {
    /// Claims that each of `bits` is zero or one, and that `x` is the number that they pack, the lowest first. So x is
    /// below 2 to the number of bits, in a prime field of a greater characteristic.
    pub fn assert_bits(&mut self, x: Expr<'a>, bits: &[Expr<'a>]) {
        self.assert_bools(bits);
        let packed = self.c.expressions.pack(bits);
        self.assert_eq(x, packed);
    }

    /// Claims that each cell of columns in the current row is zero or one, the i-th under the label `label::[i]` where
    /// there is a label.
    pub fn assert_bools_in(&mut self, columns: Columns<'a>) {
        for i in 0..columns.len() {
            let label = self.c.index_label(self.label, i);
            self.c.bit(columns.current(i), self.condition, label);
        }
    }

    /// Claims that each cell of columns in the current row is zero or one, and that `x` is the number that they pack,
    /// the lowest first.
    pub fn assert_bits_in(&mut self, x: Expr<'a>, bits: Columns<'a>) {
        self.assert_bools_in(bits);
        self.assert_eq(x, bits.pack());
    }
}
