//! A well-formed pool whose expressions are named by lines. Whether a name's value belongs to the pool is tested at run
//! time.
ghost use Rattle.std.specs.Prelude.{◌<◌, IsTrue, All, IfOk};
ghost use Rattle.air_symbolic.specs.Pools.{size};

use crate::known_leaves::show_known;
use crate::shown::{Shown, show_all, show_constant, show_expression};
use crate::spellings::answer_alone;
use air_field::{Algebra, Field, RingError};
use air_json::{WireLeaf, from_flat_value, to_flat_value};
use air_symbolic::{BaseLeaf, Degrees, ExprId, ExprPool, LeafWeight, SymLeaf};
use serde_json::Value;
use std::alloc::Global;
use std::marker::Model;
use test_lines::words::{count_of, counts_of, number_of, value_of};
use test_lines::{Bench, Fault, Line, Names, Why};

/// A leaf with its own calls. This is a trait apart from `Shown`, since a method can't be proved if it calls something
/// that requires its own trait.
pub trait TableLeaf: Shown {
    /// The expression made by a call of this kind of pool, or by a call of all pools.
    fn make_own<'a>(
        bench: &mut PoolBench<'a, Self>,
        call: &str,
        operands: &[&str],
    ) -> Result<ExprId<Self>, Fault>;

    /// Whether a call is about the pool's base.
    fn is_under(call: &str) -> bool;

    /// Answers a call about the pool's base.
    fn answer_under<'a>(
        bench: &mut PoolBench<'a, Self>,
        line: &Line<'a>,
        call: &str,
        operands: &[&str],
        text: &mut String,
    ) -> Result<(), Fault>;

    /// Adds the nodes of the names in the pool's base.
    fn show_under(bench: &PoolBench<'_, Self>, text: &mut String) -> Result<(), Fault>;
}

#[derive(Drop)]
pub struct PoolBench<'a, A: SymLeaf> {
    pub pool: ExprPool<A>,
    pub names: Names<'a, ExprId<A>>,
    /// Names in the base pool, if this is an extension pool.
    pub base_names: Names<'a, ExprId<BaseLeaf<A::F>>>,
}

impl<'a, A: SymLeaf> Model for PoolBench<'a, A> {
    ghost use Rattle.air_symbolic.specs.Pools.{IsPool, Pool};

    ghost Value = { Pool A.Base A };

    ghost view = { λ b. b.pool };

    ghost invariant = { λ b. IsPool A.reads b.pool };
}

// Adds degrees, and the number of turns they took.
fn show_turns(degrees: &Degrees, text: &mut String) -> Result<(), Fault> {
    for degree in &degrees.values {
        write!(text, "{degree} ")?;
    }
    let turns = degrees.turns;
    write!(text, "turns {turns}")?;
    Ok(())
}

// Adds a JSON value.
fn show_value(alloc: Global, value: &Value, text: &mut String) -> Result<(), Fault> {
    let written = value.to_string(alloc)?;
    text.push_str(written.as_str())?;
    Ok(())
}

// The operands of an operation.
enum Operands {
    None,
    Number,
    One,
    OneAndPower,
    Two,
    Any,
}

// The operands of a call's operation. (A function of its own: comparing words costs more proof beside a borrowed pool.)
fn operands_of(call: &str) -> Option<Operands> {
    match call {
        "zero" => Some(Operands::None),
        "constant" => Some(Operands::Number),
        "neg" | "double" | "bool_check" | "insert_neg" => Some(Operands::One),
        "mul_2exp_u64" => Some(Operands::OneAndPower),
        "add" | "sub" | "mul" | "xor" | "andn" | "insert_add" | "insert_sub" | "insert_mul" => {
            Some(Operands::Two)
        }
        "sum" | "product" => Some(Operands::Any),
        _ => None,
    }
}

impl<'a, A: SymLeaf> PoolBench<'a, A> {
    /// The expression of a name.
    pub fn at(&self, name: &str) -> Result<ExprId<A>, Fault>
        ensures { IfOk result (λ x. x < size self.now) }
    {
        let x = self.names.get(name)?;
        if self.pool.contains(x) {
            Ok(x)
        } else {
            Err(Fault::Unreadable(Why::OtherPool))
        }
    }

    /// The expression of the only operand.
    pub fn only_operand(&self, operands: &[&str]) -> Result<ExprId<A>, Fault>
        ensures { IfOk result (λ x. x < size self.now) }
    {
        match operands {
            [x] => self.at(*x),
            _ => Err(Fault::Unreadable(Why::NoSuchCall)),
        }
    }

    // Whether all expressions are in the pool.
    fn contains_all(&self, xs: &[ExprId<A>]) -> bool
        ensures { IsTrue result → All (λ x. x < size self.now) xs.now }
    {
        for x in xs {
            if !self.pool.contains(*x) {
                return false;
            }
        }
        true
    }

    // Adds the expressions of the names to `all`.
    fn add_all(&self, names: &[&str], all: &mut Vec<ExprId<A>>) -> Result<(), Fault> {
        for name in names {
            let x = self.at(*name)?;
            all.push(x)?;
        }
        Ok(())
    }

    // The expressions of the names.
    fn all_at(&self, names: &[&str]) -> Result<Vec<ExprId<A>>, Fault>
        ensures { IfOk result (λ all. All (λ x. x < size self.now) all.items) }
    {
        let mut all = Vec::new(self.names.alloc());
        self.add_all(names, &mut all)?;
        if self.contains_all(all.as_slice()) {
            Ok(all)
        } else {
            Err(Fault::Unreadable(Why::OtherPool))
        }
    }

    // An operation on one expression. (A call at the end of an arm costs the least proof: each `?` needs three proofs.)
    fn operate(&mut self, word: &str, x: ExprId<A>) -> Result<ExprId<A>, RingError>
        requires { x < size self.old }
    {
        match word {
            "neg" => self.pool.neg(x),
            "double" => self.pool.double(x),
            "bool_check" => self.pool.bool_check(x),
            _ => self.pool.insert_neg(x),
        }
    }

    // An operation on two expressions, with simplification.
    fn fold_two(&mut self, word: &str, x: ExprId<A>, y: ExprId<A>) -> Result<ExprId<A>, RingError>
        requires x_in { x < size self.old }
        requires y_in { y < size self.old }
    {
        match word {
            "add" => self.pool.add(x, y),
            "sub" => self.pool.sub(x, y),
            _ => self.pool.mul(x, y),
        }
    }

    // An operation on two bits.
    fn join_bits(&mut self, word: &str, x: ExprId<A>, y: ExprId<A>) -> Result<ExprId<A>, RingError>
        requires x_in { x < size self.old }
        requires y_in { y < size self.old }
    {
        match word {
            "xor" => self.pool.xor(x, y),
            _ => self.pool.andn(x, y),
        }
    }

    // An operation on two expressions, without simplification.
    fn insert_two(&mut self, word: &str, x: ExprId<A>, y: ExprId<A>) -> Result<ExprId<A>, RingError>
        requires x_in { x < size self.old }
        requires y_in { y < size self.old }
    {
        match word {
            "insert_add" => self.pool.insert_add(x, y),
            "insert_sub" => self.pool.insert_sub(x, y),
            _ => self.pool.insert_mul(x, y),
        }
    }

    // An operation on two expressions.
    fn operate_two(
        &mut self,
        word: &str,
        x: ExprId<A>,
        y: ExprId<A>,
    ) -> Result<ExprId<A>, RingError>
        requires x_in { x < size self.old }
        requires y_in { y < size self.old }
    {
        match word {
            "insert_add" | "insert_sub" | "insert_mul" => self.insert_two(word, x, y),
            "xor" | "andn" => self.join_bits(word, x, y),
            _ => self.fold_two(word, x, y),
        }
    }

    // The result of an operation on one expression.
    fn made_of_one(&mut self, word: &str, operands: &[&str]) -> Result<ExprId<A>, Fault> {
        let x = self.only_operand(operands)?;
        Ok(self.operate(word, x)?)
    }

    // The result of an operation on two expressions.
    fn made_of_two(&mut self, word: &str, operands: &[&str]) -> Result<ExprId<A>, Fault> {
        let [x, y] = operands else {
            return Err(Fault::Unreadable(Why::NoSuchCall));
        };
        let x = self.at(*x)?;
        let y = self.at(*y)?;
        Ok(self.operate_two(word, x, y)?)
    }

    // The sum or the product of expressions.
    fn join(&mut self, word: &str, all: &[ExprId<A>]) -> Result<ExprId<A>, Fault>
        requires { All (λ x. x < size self.old) all.now }
    {
        match word {
            "sum" => Ok(self.pool.sum(all)?),
            _ => Ok(self.pool.product(all)?),
        }
    }

    // The sum or the product of the expressions of the names.
    fn join_named(&mut self, word: &str, names: &[&str]) -> Result<ExprId<A>, Fault> {
        let all = self.all_at(names)?;
        self.join(word, &all)
    }

    fn zero(&mut self, operands: &[&str]) -> Result<ExprId<A>, Fault> {
        let [] = operands else {
            return Err(Fault::Unreadable(Why::NoSuchCall));
        };
        Ok(self.pool.zero()?)
    }

    fn constant(&mut self, operands: &[&str]) -> Result<ExprId<A>, Fault> {
        let [c] = operands else {
            return Err(Fault::Unreadable(Why::NoSuchCall));
        };
        let c = A::F::from_u64(number_of(*c)?);
        Ok(self.pool.constant(c)?)
    }

    fn times_power(&mut self, operands: &[&str]) -> Result<ExprId<A>, Fault> {
        let [x, power] = operands else {
            return Err(Fault::Unreadable(Why::NoSuchCall));
        };
        let x = self.at(*x)?;
        let power = number_of(*power)?;
        Ok(self.pool.mul_2exp_u64(x, power)?)
    }

    /// The expression made by an operation.
    pub fn make_common(&mut self, call: &str, operands: &[&str]) -> Result<ExprId<A>, Fault> {
        match operands_of(call) {
            Some(Operands::None) => self.zero(operands),
            Some(Operands::Number) => self.constant(operands),
            Some(Operands::OneAndPower) => self.times_power(operands),
            Some(Operands::One) => self.made_of_one(call, operands),
            Some(Operands::Two) => self.made_of_two(call, operands),
            Some(Operands::Any) => self.join_named(call, operands),
            None => Err(Fault::Unreadable(Why::NoSuchCall)),
        }
    }

    // The degree of an expression over a number of rows.
    fn degree_over(&self, x: ExprId<A>, rows: usize, periods: &[usize]) -> Result<usize, Fault>
        requires { x < size self.now }
    {
        Ok(self.pool.poly_degree(x, rows, periods)?)
    }

    // The degree of an expression over the number of rows in the words.
    fn poly_degree(&self, operands: &[&str]) -> Result<usize, Fault> {
        let [x, rows, periods] = operands else {
            return Err(Fault::Unreadable(Why::NoSuchCall));
        };
        let x = self.at(*x)?;
        let rows = count_of(*rows)?;
        let periods = counts_of(self.names.alloc(), *periods)?;
        self.degree_over(x, rows, &periods)
    }

    // The degree of an expression for a weight of the transition selector.
    fn weighted_degree(&self, operands: &[&str]) -> Result<usize, Fault> {
        let [x, weight] = operands else {
            return Err(Fault::Unreadable(Why::NoSuchCall));
        };
        let x = self.at(*x)?;
        let weight = count_of(*weight)?;
        Ok(self.pool.degree_multiple_with_transition(x, weight)?)
    }

    // The number of an expression, or its degree.
    fn count_of_one(&self, call: &str, operands: &[&str]) -> Result<usize, Fault> {
        let x = self.only_operand(operands)?;
        match call {
            "number" => Ok(x.number()),
            _ => Ok(self.pool.degree_multiple(x)),
        }
    }

    // The number that a call returns.
    fn count(&self, call: &str, operands: &[&str]) -> Result<usize, Fault> {
        match call {
            "len" if operands.is_empty() => Ok(self.pool.len()),
            "number" | "degree_multiple" => self.count_of_one(call, operands),
            "degree_multiple_with_transition" => self.weighted_degree(operands),
            "poly_degree" => self.poly_degree(operands),
            _ => Err(Fault::Unreadable(Why::NoSuchCall)),
        }
    }

    // Adds the degrees of expressions for a weight, and the turns they took.
    fn show_degrees_of(
        &self,
        weight: LeafWeight<'_>,
        roots: &[ExprId<A>],
        text: &mut String,
    ) -> Result<(), Fault>
        requires { All (λ x. x < size self.now) roots.now }
    {
        let degrees = self.pool.degrees(roots, weight)?;
        show_turns(&degrees, text)
    }

    // Adds the degrees of the expressions of the names for a weight, and the turns they took.
    fn show_degrees(
        &self,
        weight: LeafWeight<'_>,
        names: &[&str],
        text: &mut String,
    ) -> Result<(), Fault> {
        let roots = self.all_at(names)?;
        self.show_degrees_of(weight, &roots, text)
    }

    // Adds the degrees for a weight of the transition selector.
    fn weigh_transition(&self, words: &[&str], text: &mut String) -> Result<(), Fault> {
        let [weight, names @ ..] = words else {
            return Err(Fault::Unreadable(Why::NoSuchWord));
        };
        let weight = count_of(*weight)?;
        self.show_degrees(LeafWeight::Transition(weight), names, text)
    }

    // Adds the degrees for a number of rows and the lengths of the periodic columns.
    fn weigh_trace(&self, words: &[&str], text: &mut String) -> Result<(), Fault> {
        let [rows, periods, names @ ..] = words else {
            return Err(Fault::Unreadable(Why::NoSuchWord));
        };
        let trace_len = count_of(*rows)?;
        let periods = counts_of(self.names.alloc(), *periods)?;
        let weight = LeafWeight::Trace {
            trace_len,
            periods: periods.as_slice(),
        };
        self.show_degrees(weight, names, text)
    }

    // Adds the degrees for the weight given by the words, and the turns they took.
    fn weigh(&self, words: &[&str], text: &mut String) -> Result<(), Fault> {
        let [kind, rest @ ..] = words else {
            return Err(Fault::Unreadable(Why::NoSuchWord));
        };
        match *kind {
            "cached" => self.show_degrees(LeafWeight::Cached, rest, text),
            "transition" => self.weigh_transition(rest, text),
            "trace" => self.weigh_trace(rest, text),
            _ => Err(Fault::Unreadable(Why::NoSuchWord)),
        }
    }
}

impl<'a, A: Shown> PoolBench<'a, A> {
    fn show_const(&self, operands: &[&str], text: &mut String) -> Result<(), Fault> {
        let x = self.only_operand(operands)?;
        show_constant::<A>(self.pool.as_const(x), text)
    }

    /// Adds the text of an expression, and gives it the line's name.
    pub fn keep(&mut self, line: &Line<'a>, x: ExprId<A>, text: &mut String) -> Result<(), Fault> {
        show_expression(&self.pool, &self.names, &self.base_names, x, text)?;
        match line.name {
            Some(name) => self.names.bind(name, x, line.times.is_some()),
            None => Ok(()),
        }
    }
}

impl<'a, A: Shown + WireLeaf> PoolBench<'a, A> {
    fn read_value(&mut self, value: &Value) -> Result<ExprId<A>, Fault> {
        Ok(from_flat_value(self.names.alloc(), &mut self.pool, value)?)
    }

    fn read(&mut self, operands: &[&str]) -> Result<ExprId<A>, Fault> {
        let [list] = operands else {
            return Err(Fault::Unreadable(Why::NoSuchCall));
        };
        let value = value_of(self.names.alloc(), *list)?;
        self.read_value(&value)
    }

    fn show_written(&self, operands: &[&str], text: &mut String) -> Result<(), Fault> {
        let x = self.only_operand(operands)?;
        let value = to_flat_value(self.names.alloc(), &self.pool, x)?;
        show_value(self.names.alloc(), &value, text)
    }

    fn show_known(&self, operands: &[&str], text: &mut String) -> Result<(), Fault> {
        match operands {
            [known] => show_known::<A>(self.names.alloc(), *known, text),
            _ => Err(Fault::Unreadable(Why::NoSuchCall)),
        }
    }

    // Adds the number that a call returns.
    fn show_count(&self, call: &str, operands: &[&str], text: &mut String) -> Result<(), Fault> {
        let count = self.count(call, operands)?;
        write!(text, "{count}")?;
        Ok(())
    }

    // Adds the answer of a call that makes no expression.
    fn see(&self, call: &str, operands: &[&str], text: &mut String) -> Result<(), Fault> {
        match call {
            "as_const" => self.show_const(operands, text),
            "degrees" => self.weigh(operands, text),
            "to_flat_value" => self.show_written(operands, text),
            "known_leaf" => self.show_known(operands, text),
            "spelling" | "variable_degrees" | "ext_variable_degrees" => {
                answer_alone(self.names.alloc(), call, operands, text)
            }
            _ => self.show_count(call, operands, text),
        }
    }
}

// Whether a call makes no expression.
fn makes_nothing(call: &str) -> bool {
    match call {
        "len"
        | "number"
        | "degree_multiple"
        | "degree_multiple_with_transition"
        | "poly_degree"
        | "as_const"
        | "degrees"
        | "to_flat_value"
        | "known_leaf"
        | "spelling"
        | "variable_degrees"
        | "ext_variable_degrees" => true,
        _ => false,
    }
}

impl<'a, A: TableLeaf + WireLeaf> PoolBench<'a, A> {
    // The expression that a call makes.
    fn made_by(&mut self, call: &str, operands: &[&str]) -> Result<ExprId<A>, Fault> {
        match call {
            "from_flat_value" => self.read(operands),
            _ => A::make_own(self, call, operands),
        }
    }

    // Adds the text of the expression that a call makes, and gives it the line's name.
    fn make(
        &mut self,
        line: &Line<'a>,
        call: &str,
        operands: &[&str],
        text: &mut String,
    ) -> Result<(), Fault> {
        let x = self.made_by(call, operands)?;
        self.keep(line, x, text)
    }
}

impl<'a, A: TableLeaf + WireLeaf> Bench<'a> for PoolBench<'a, A> {
    fn new(alloc: Global) -> Self {
        PoolBench {
            pool: ExprPool::new(alloc),
            names: Names::new(alloc),
            base_names: Names::new(alloc),
        }
    }

    fn answer(&mut self, line: &Line<'a>, text: &mut String) -> Result<(), Fault> {
        let [call, operands @ ..] = line.words.as_slice() else {
            return Err(Fault::Unreadable(Why::NoSuchCall));
        };
        if A::is_under(*call) {
            A::answer_under(self, line, *call, operands, text)
        } else if line.name.is_none() && makes_nothing(*call) {
            self.see(*call, operands, text)
        } else {
            self.make(line, *call, operands, text)
        }
    }

    fn show_state(&self, text: &mut String) -> Result<(), Fault> {
        show_all(&self.pool, &self.names, &self.base_names, text)?;
        A::show_under(self, text)
    }
}
