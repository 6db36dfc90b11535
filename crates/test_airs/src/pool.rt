//! A well-formed pool whose expressions are named by lines. Whether a name's value belongs to the pool is tested at run
//! time.
ghost use Rattle.std.specs.Prelude.{◌<◌, IsTrue, All, IfOk};
ghost use Rattle.air_symbolic.specs.Pools.{size};

use crate::words::leaf_of;
use air_audit::{Algebra, BaseLeaf, ExprId, ExprPool, Field, RingError, SymLeaf};
use std::alloc::Global;
use std::marker::Model;
use test_lines::words::element_of;
use test_lines::{Fault, Line, Names, Why};

/// A pool, and the names of its expressions.
#[derive(Drop)]
pub struct NamedPool<'a, A: SymLeaf> {
    pub pool: ExprPool<A>,
    pub names: Names<'a, ExprId<A>>,
}

impl<'a, A: SymLeaf> Model for NamedPool<'a, A> {
    ghost use Rattle.air_symbolic.specs.Pools.{IsPool, Pool};

    ghost Value = { Pool A.Base A };

    ghost view = { λ b. b.pool };

    ghost invariant = { λ b. IsPool A.reads b.pool };
}

impl<'a, A: SymLeaf> NamedPool<'a, A> {
    pub fn new(alloc: Global) -> Self {
        NamedPool {
            pool: ExprPool::new(alloc),
            names: Names::new(alloc),
        }
    }

    /// The expression of a name.
    pub fn at(&self, name: &str) -> Result<ExprId<A>, Fault>
        ensures { IfOk result (λ x. x < size self.now) }
    {
        let x = self.names.get(name)?;
        if self.pool.contains(x) {
            Ok(x)
        } else {
            Err(Fault::Unreadable(Why::OtherPool))
        }
    }

    /// Whether all expressions are in the pool.
    pub fn contains_all(&self, xs: &[ExprId<A>]) -> bool
        ensures { IsTrue result → All (λ x. x < size self.now) xs.now }
    {
        for x in xs {
            if !self.pool.contains(*x) {
                return false;
            }
        }
        true
    }

    fn neg(&mut self, operands: &[&str]) -> Result<Option<ExprId<A>>, Fault> {
        let [x] = operands else {
            return Ok(None);
        };
        let x = self.at(*x)?;
        Ok(Some(self.pool.neg(x)?))
    }

    fn operate(&mut self, word: &str, x: ExprId<A>, y: ExprId<A>) -> Result<ExprId<A>, RingError>
        requires x_in { x < size self.old }
        requires y_in { y < size self.old }
    {
        match word {
            "add" => self.pool.add(x, y),
            "sub" => self.pool.sub(x, y),
            _ => self.pool.mul(x, y),
        }
    }

    fn two(&mut self, word: &str, operands: &[&str]) -> Result<Option<ExprId<A>>, Fault> {
        let [x, y] = operands else {
            return Ok(None);
        };
        let x = self.at(*x)?;
        let y = self.at(*y)?;
        Ok(Some(self.operate(word, x, y)?))
    }

    fn constant(&mut self, operands: &[&str]) -> Result<Option<ExprId<A>>, Fault> {
        let [c] = operands else {
            return Ok(None);
        };
        let c: A::F = element_of(*c)?;
        Ok(Some(self.pool.constant(c)?))
    }

    // The expression that an operation makes, or `None` if the call is no operation.
    fn make_operation(
        &mut self,
        call: &str,
        operands: &[&str],
    ) -> Result<Option<ExprId<A>>, Fault> {
        match call {
            "constant" => self.constant(operands),
            "neg" => self.neg(operands),
            "add" | "sub" | "mul" => self.two(call, operands),
            _ => Ok(None),
        }
    }

    // Gives an expression the line's name.
    fn keep(&mut self, line: &Line<'a>, x: ExprId<A>) -> Result<(), Fault> {
        match line.name {
            Some(name) => self.names.bind(name, x, line.times.is_some()),
            None => Err(Fault::Unreadable(Why::NoName)),
        }
    }

    // Makes the expression of a leaf, and gives it the line's name.
    fn keep_leaf(&mut self, line: &Line<'a>, leaf: A) -> Result<(), Fault>
        requires { (A.reads self.old.base).valid leaf }
    {
        let x = self.pool.leaf(leaf)?;
        self.keep(line, x)
    }

    // Makes the expression of an operation and names it. Returns whether the line is such a call.
    fn answer_operation(
        &mut self,
        line: &Line<'a>,
        call: &str,
        operands: &[&str],
    ) -> Result<bool, Fault> {
        match self.make_operation(call, operands)? {
            Some(x) => {
                self.keep(line, x)?;
                Ok(true)
            }
            None => Ok(false),
        }
    }
}

impl<'a, F: Field> NamedPool<'a, BaseLeaf<F>> {
    // Makes the leaf of a line and names it.
    fn answer_leaf(&mut self, line: &Line<'a>, leaf: &[&str]) -> Result<bool, Fault> {
        let leaf = leaf_of(leaf)?;
        self.keep_leaf(line, leaf)?;
        Ok(true)
    }

    /// Makes the expression of a line and names it. Returns whether the line is such a call.
    pub fn answer(&mut self, line: &Line<'a>) -> Result<bool, Fault> {
        let [call, operands @ ..] = line.words.as_slice() else {
            return Ok(false);
        };
        match *call {
            "leaf" | "variable" => self.answer_leaf(line, operands),
            _ => self.answer_operation(line, *call, operands),
        }
    }
}
