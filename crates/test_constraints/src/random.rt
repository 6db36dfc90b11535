//! Random programs of 200 calls, written with handles and by the pool's own calls: both make the same constraints.
use crate::shown::shown;
use air_print::show;
use p3_air::{
    AirError, Algebra, BabyBear, BaseEntry, BaseLeaf, Constraints, Expr, ExprId, ExprPool,
    Expressions, Field, FlatAir, SymbolicVariable,
};
use std::alloc::Global;
use std::io;

const CALLS: usize = 200;

/// A call. Operands are places among the expressions so far.
#[derive(Clone, Copy)]
enum Call {
    Current(usize),
    Next(usize),
    FirstRow,
    Transition,
    Number(u64),
    Add(usize, usize),
    Sub(usize, usize),
    Mul(usize, usize),
    Neg(usize),
    AddNumber(usize, u64),
    MulNumber(u64, usize),
    AssertZero(usize),
    AssertBool(usize),
    AssertOne(usize),
    AssertEq(usize, usize),
    AssertWhen(usize, usize),
    AssertWhenBoth(usize, usize, usize),
}

/// A generator of numbers.
#[derive(Drop)]
struct Numbers {
    state: u64,
}

impl Numbers {
    /// A number below `bound`, which is at least 1.
    fn below(&mut self, bound: u64) -> u64 {
        self.state = self
            .state
            .wrapping_mul(6364136223846793005)
            .wrapping_add(1442695040888963407);
        let bound = bound.max(1);
        (self.state >> 33) % bound
    }

    /// One of the last twelve of `count` places.
    fn place(&mut self, count: usize) -> usize {
        let back = self.below(12) as usize;
        count.saturating_sub(1).saturating_sub(back)
    }

    /// A call, with `count` expressions before it.
    fn call(&mut self, count: usize) -> Call {
        let (x, y, z) = (self.place(count), self.place(count), self.place(count));
        let n = self.below(4);
        match self.below(20) {
            0 | 1 => Call::Current(n as usize),
            2 | 3 => Call::Next(n as usize),
            4 => Call::FirstRow,
            5 => Call::Transition,
            6 => Call::Number(n),
            7 | 8 => Call::Add(x, y),
            9 | 10 => Call::Sub(x, y),
            11 => Call::Mul(x, y),
            12 => Call::Neg(x),
            13 => Call::AddNumber(x, n),
            14 => Call::MulNumber(n, x),
            15 => Call::AssertZero(x),
            16 => Call::AssertBool(x),
            17 => Call::AssertOne(x),
            18 => Call::AssertEq(x, y),
            _ => {
                if n < 2 {
                    Call::AssertWhen(x, y)
                } else {
                    Call::AssertWhenBoth(x, y, z)
                }
            }
        }
    }
}

// The expression at a place.
fn at<E: Copy>(made: &[E], place: usize) -> Option<E> {
    made.get(place).copied()
}

/// Makes the call with handles.
fn write<'a>(
    e: &'a Expressions,
    c: &mut Constraints<'a>,
    made: &[Expr<'a>],
    call: Call,
) -> Option<Expr<'a>> {
    match call {
        Call::Current(i) => Some(e.current(i)),
        Call::Next(i) => Some(e.next(i)),
        Call::FirstRow => Some(e.is_first_row()),
        Call::Transition => Some(e.is_transition()),
        Call::Number(n) => Some(e.number(n)),
        Call::Add(x, y) => Some(at(made, x)? + at(made, y)?),
        Call::Sub(x, y) => Some(at(made, x)? - at(made, y)?),
        Call::Mul(x, y) => Some(at(made, x)? * at(made, y)?),
        Call::Neg(x) => Some(-at(made, x)?),
        Call::AddNumber(x, n) => Some(at(made, x)? + n),
        Call::MulNumber(n, x) => Some(n * at(made, x)?),
        _ => claim(c, made, call),
    }
}

// Makes a call that asserts; it makes no expression.
fn claim<'a>(c: &mut Constraints<'a>, made: &[Expr<'a>], call: Call) -> Option<Expr<'a>> {
    match call {
        Call::AssertZero(x) => c.assert_zero(at(made, x)?),
        Call::AssertBool(x) => c.assert_bool(at(made, x)?),
        Call::AssertOne(x) => c.assert_one(at(made, x)?),
        Call::AssertEq(x, y) => c.assert_eq(at(made, x)?, at(made, y)?),
        Call::AssertWhen(x, y) => c.when(at(made, x)?).assert_zero(at(made, y)?),
        Call::AssertWhenBoth(x, y, z) => {
            c.when(at(made, x)?)
                .when(at(made, y)?)
                .assert_zero(at(made, z)?);
        }
        _ => {}
    }
    None
}

// Makes the calls with handles.
fn write_all<'a>(
    e: &'a Expressions,
    c: &mut Constraints<'a>,
    alloc: Global,
    calls: &[Call],
) -> Result<(), AirError> {
    let mut made = Vec::new(alloc);
    for call in calls {
        if let Some(x) = write(e, c, &made, *call) {
            made.push(x)?;
        }
    }
    Ok(())
}

/// The AIR of calls, written with handles.
fn written(alloc: Global, calls: &[Call]) -> Result<FlatAir<BabyBear>, AirError> {
    let e = Expressions::new(alloc);
    let mut c = Constraints::new(alloc, &e, 4);
    write_all(&e, &mut c, alloc, calls)?;
    c.into_air()
}

type Id = ExprId<BaseLeaf<BabyBear>>;

type Pool = ExprPool<BaseLeaf<BabyBear>>;

fn leaf(pool: &mut Pool, leaf: BaseLeaf<BabyBear>) -> Result<Id, AirError> {
    let made = pool.leaf_expr(leaf)?;
    Ok(made)
}

fn number(pool: &mut Pool, n: u64) -> Result<Id, AirError> {
    leaf(pool, BaseLeaf::Constant(BabyBear::from_u64(n)))
}

fn column(pool: &mut Pool, offset: usize, i: usize) -> Result<Id, AirError> {
    let variable = SymbolicVariable::new(BaseEntry::Main { offset }, i);
    leaf(pool, BaseLeaf::Variable(variable))
}

fn sum(pool: &mut Pool, x: Id, y: Id) -> Result<Id, AirError> {
    if !pool.contains(x) || !pool.contains(y) {
        return Err(AirError::EmptyList);
    }
    let made = pool.add(x, y)?;
    Ok(made)
}

fn difference(pool: &mut Pool, x: Id, y: Id) -> Result<Id, AirError> {
    if !pool.contains(x) || !pool.contains(y) {
        return Err(AirError::EmptyList);
    }
    let made = pool.sub(x, y)?;
    Ok(made)
}

fn product(pool: &mut Pool, x: Id, y: Id) -> Result<Id, AirError> {
    if !pool.contains(x) || !pool.contains(y) {
        return Err(AirError::EmptyList);
    }
    let made = pool.mul(x, y)?;
    Ok(made)
}

fn negative(pool: &mut Pool, x: Id) -> Result<Id, AirError> {
    if !pool.contains(x) {
        return Err(AirError::EmptyList);
    }
    let made = pool.neg(x)?;
    Ok(made)
}

/// Makes the call in a pool; one that asserts makes nothing.
fn make(pool: &mut Pool, made: &[Id], call: Call) -> Result<Option<Id>, AirError> {
    let expression = match call {
        Call::Current(i) => column(pool, 0, i)?,
        Call::Next(i) => column(pool, 1, i)?,
        Call::FirstRow => leaf(pool, BaseLeaf::IsFirstRow)?,
        Call::Transition => leaf(pool, BaseLeaf::IsTransition)?,
        Call::Number(n) => number(pool, n)?,
        _ => return operate(pool, made, call),
    };
    Ok(Some(expression))
}

// The sum, difference or product of two.
fn join(
    pool: &mut Pool,
    made: &[Id],
    call: Call,
    x: usize,
    y: usize,
) -> Result<Option<Id>, AirError> {
    let (Some(x), Some(y)) = (at(made, x), at(made, y)) else {
        return Ok(None);
    };
    let joined = match call {
        Call::Add(..) => sum(pool, x, y)?,
        Call::Sub(..) => difference(pool, x, y)?,
        _ => product(pool, x, y)?,
    };
    Ok(Some(joined))
}

fn operate(pool: &mut Pool, made: &[Id], call: Call) -> Result<Option<Id>, AirError> {
    match call {
        Call::Add(x, y) | Call::Sub(x, y) | Call::Mul(x, y) => join(pool, made, call, x, y),
        Call::Neg(x) => match at(made, x) {
            Some(x) => Ok(Some(negative(pool, x)?)),
            None => Ok(None),
        },
        Call::AddNumber(x, n) => match at(made, x) {
            Some(x) => {
                let y = number(pool, n)?;
                Ok(Some(sum(pool, x, y)?))
            }
            None => Ok(None),
        },
        Call::MulNumber(n, y) => match at(made, y) {
            Some(y) => {
                let x = number(pool, n)?;
                Ok(Some(product(pool, x, y)?))
            }
            None => Ok(None),
        },
        _ => Ok(None),
    }
}

// What a call that asserts says to be zero.
fn root(pool: &mut Pool, made: &[Id], call: Call) -> Result<Option<Id>, AirError> {
    match call {
        Call::AssertZero(x) => Ok(at(made, x)),
        Call::AssertBool(x) => match at(made, x) {
            Some(x) => {
                let one = number(pool, 1)?;
                let less = difference(pool, x, one)?;
                Ok(Some(product(pool, x, less)?))
            }
            None => Ok(None),
        },
        Call::AssertOne(x) => match at(made, x) {
            Some(x) => {
                let one = number(pool, 1)?;
                Ok(Some(difference(pool, x, one)?))
            }
            None => Ok(None),
        },
        Call::AssertEq(x, y) => join(pool, made, Call::Sub(x, y), x, y),
        Call::AssertWhen(x, y) => join(pool, made, Call::Mul(x, y), x, y),
        Call::AssertWhenBoth(x, y, z) => {
            let (Some(x), Some(y), Some(z)) = (at(made, x), at(made, y), at(made, z)) else {
                return Ok(None);
            };
            let inner = product(pool, y, z)?;
            Ok(Some(product(pool, x, inner)?))
        }
        _ => Ok(None),
    }
}

/// The constraints of calls, made in a pool.
fn made_directly(alloc: Global, pool: &mut Pool, calls: &[Call]) -> Result<Vec<Id>, AirError> {
    let mut made = Vec::new(alloc);
    for call in calls {
        if let Some(x) = make(pool, &made, *call)? {
            made.push(x)?;
        }
    }
    let mut roots = Vec::new(alloc);
    for call in calls {
        if let Some(x) = root(pool, &made, *call)? {
            roots.push(x)?;
        }
    }
    Ok(roots)
}

// The text of what was made in a pool.
fn direct_text(alloc: Global, pool: &Pool, roots: &[Id]) -> Result<String, AirError> {
    if !roots.iter().all(|root| pool.contains(*root)) {
        return Err(AirError::EmptyList);
    }
    let text = show(alloc, pool, roots, &[])?;
    Ok(text)
}

// Whether a call makes an expression.
fn makes(call: Call) -> bool {
    !matches!(
        call,
        Call::AssertZero(_)
            | Call::AssertBool(_)
            | Call::AssertOne(_)
            | Call::AssertEq(..)
            | Call::AssertWhen(..)
            | Call::AssertWhenBoth(..)
    )
}

/// A program of calls; it begins with a column.
fn program(alloc: Global, seed: u64) -> Result<Vec<Call>, AirError> {
    let mut numbers = Numbers { state: seed };
    let mut calls = Vec::new(alloc);
    calls.push(Call::Current(0))?;
    let mut count = 1;
    for _ in 1..CALLS {
        let call = numbers.call(count);
        if makes(call) {
            count = count.saturating_add(1);
        }
        calls.push(call)?;
    }
    Ok(calls)
}

/// What both ways make of a program.
fn compared(alloc: Global, seed: u64) -> Result<String, AirError> {
    let calls = program(alloc, seed)?;
    let air = written(alloc, &calls)?;
    let mut pool = ExprPool::new(alloc);
    let roots = made_directly(alloc, &mut pool, &calls)?;
    let one = shown(alloc, &air)?;
    let other = direct_text(alloc, &pool, &roots)?;
    let is_same = one.as_str() == other.as_str() && air.pool.len() == pool.len();
    let verdict = if is_same { "the same" } else { "different" };
    let text = format!(in alloc;
        "{} calls, {} constraints: {verdict}",
        calls.len(),
        roots.len()
    )?;
    Ok(text)
}

/// Prints what both ways make of eight programs.
pub fn print(rt: &HostRuntime) -> io::Result<()> {
    println!(rt; "== random programs")?;
    for seed in 0..8 {
        match compared(rt.alloc(), seed) {
            Ok(text) => println!(rt; "{text}")?,
            Err(error) => println!(rt; "refused: {error}")?,
        }
    }
    Ok(())
}
