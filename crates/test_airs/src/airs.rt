//! The AIRs that lines make.
ghost use Rattle.std.specs.Prelude.{◌<◌, All, OnOk};
ghost use Rattle.air_symbolic.specs.Pools.{size};

use crate::air::TableAir;
use crate::parts::Parts;
use crate::pool::NamedPool;
use air_audit::{AirError, BaseLeaf, ExprId, Field, FlatAir};
use std::alloc::Global;
use std::mem;
use test_lines::{Fault, Line, Names, Why};

/// The expressions and the AIRs that lines have made.
#[derive(Drop)]
pub struct Airs<'a, F: Field> {
    pub pool: NamedPool<'a, BaseLeaf<F>>,
    airs: Vec<TableAir<F>>,
    names: Names<'a, usize>,
    /// Whether the pool was lost in a failed attempt to make an AIR.
    lost: bool,
}

impl<'a, F: Field> Airs<'a, F> {
    pub fn new(alloc: Global) -> Self {
        Airs {
            pool: NamedPool::new(alloc),
            airs: Vec::new(alloc),
            names: Names::new(alloc),
            lost: false,
        }
    }

    /// The AIR of a name.
    pub fn air(&self, name: &str) -> Result<&TableAir<F>, Fault> {
        match self.airs.get(self.names.get(name)?) {
            Some(air) => Ok(air),
            None => Err(Fault::Unreadable(Why::NoSuchName)),
        }
    }

    // Names the AIR that is made next. Its expressions must be in the pool.
    fn name_next(&mut self, name: &'a str, roots: &[ExprId<BaseLeaf<F>>]) -> Result<(), Fault>
        ensures { OnOk result (All (λ x. x < size self.new.pool) roots.now) }
    {
        if !self.pool.contains_all(roots) {
            return Err(Fault::Unreadable(Why::OtherPool));
        }
        self.airs.reserve(1)?;
        self.names.bind(name, self.airs.len(), false)
    }

    // The AIR of these parts. It takes the pool, so afterwards names of expressions have no value.
    fn air_of(
        &mut self,
        parts: Parts<F>,
        roots: Vec<ExprId<BaseLeaf<F>>>,
    ) -> Result<TableAir<F>, AirError>
        requires { All (λ x. x < size self.old.pool) roots.items }
    {
        let none = NamedPool::new(self.names.alloc());
        self.lost = true;
        let NamedPool { pool, .. } = mem::replace(&mut self.pool, none);
        let Parts {
            constraints,
            beside,
        } = parts;
        let flat = FlatAir::new(pool, roots, beside)?;
        Ok(TableAir { constraints, flat })
    }

    fn push(&mut self, air: TableAir<F>) -> Result<(), Fault> {
        self.airs.push(air)?;
        self.lost = false;
        Ok(())
    }

    // Makes the AIR of these parts, and names it.
    fn keep(
        &mut self,
        name: &'a str,
        parts: Parts<F>,
        roots: Vec<ExprId<BaseLeaf<F>>>,
    ) -> Result<(), Fault> {
        self.name_next(name, &roots)?;
        let air = self.air_of(parts, roots)?;
        self.push(air)
    }

    // Reads the words of an AIR: the expressions that are zero, and its other parts.
    fn take(
        &self,
        words: &[&str],
        parts: &mut Parts<F>,
        roots: &mut Vec<ExprId<BaseLeaf<F>>>,
    ) -> Result<(), Fault> {
        for word in words {
            match word.split_once(':') {
                Some(("zero", x)) => roots.push(self.pool.at(x)?)?,
                Some((key, value)) => parts.set(key, value)?,
                None => parts.take(*word)?,
            }
        }
        Ok(())
    }

    // Makes the AIR of the words.
    fn make(&mut self, name: &'a str, words: &[&str]) -> Result<(), Fault> {
        let mut parts = Parts::new(self.names.alloc());
        let mut roots = Vec::new(self.names.alloc());
        self.take(words, &mut parts, &mut roots)?;
        self.keep(name, parts, roots)
    }

    fn answer_air(&mut self, name: &'a str, words: &[&str]) -> Result<bool, Fault> {
        self.make(name, words)?;
        Ok(true)
    }

    /// Makes the expression or the AIR of a line. Returns whether the line is such a call.
    pub fn answer(&mut self, line: &Line<'a>) -> Result<bool, Fault> {
        match (line.words.as_slice(), line.name) {
            (["air", words @ ..], Some(name)) => self.answer_air(name, words),
            _ => self.pool.answer(line),
        }
    }

    /// Adds the numbers of the named expressions; nodes without names are left out, since a failed call may leave some.
    /// If making an AIR failed after it took the pool, this fails, and no more lines can be tried.
    pub fn show_state(&self, text: &mut String) -> Result<(), Fault> {
        if self.lost {
            return Err(Fault::Memory);
        }
        for (name, x) in self.pool.names.words().iter().zip(self.pool.names.values()) {
            let number = x.number();
            write!(text, " {name} {number}")?;
        }
        Ok(())
    }
}
