//! The numbers of a pool's expressions, and the pool's nodes.
ghost use Rattle.std.specs.Prelude.{◌≡◌, ⊤};

use std::alloc::AllocError;
use std::marker::{Model, PhantomData};

/// The number of an expression in a pool of leaves `A`. Two numbers of one pool are equal exactly if their trees are.
/// The calls of a pool take only its own numbers, which `contains` tests.
#[derive(Clone, Copy, Debug, PartialEq, Eq, PartialOrd, Ord)]
pub struct ExprId<A> {
    number: usize,
    of: PhantomData<A>,
}

impl<A> Model for ExprId<A> {
    ghost use Rattle.std.specs.Prelude.{ℕ};

    ghost Value = { ℕ };

    ghost view = { λ e. e.number };

    ghost inverse = { λ n. record { number = n; of = record {} } };
}

impl<A: Copy> ExprId<A> {
    pub(crate) fn new(number: usize) -> Self
        ensures { result ≡ number }
    {
        ExprId {
            number,
            of: PhantomData,
        }
    }

    /// The number, which is below the pool's length.
    pub fn number(self) -> usize
        ensures { result ≡ self }
    {
        self.number
    }
}

/// A node of a pool. It gives its operands by number, and states its degree.
#[derive(Copy, Debug, PartialEq, Eq, PartialOrd, Ord)]
pub enum SymbolicExpr<A> {
    Leaf(A),
    Add {
        x: ExprId<A>,
        y: ExprId<A>,
        degree_multiple: usize,
    },
    Sub {
        x: ExprId<A>,
        y: ExprId<A>,
        degree_multiple: usize,
    },
    Neg {
        x: ExprId<A>,
        degree_multiple: usize,
    },
    Mul {
        x: ExprId<A>,
        y: ExprId<A>,
        degree_multiple: usize,
    },
}

// By hand, because a derived one clones field by field.
impl<A: Copy> Clone for SymbolicExpr<A> {
    ghost is_clone = { λ x y. y ≡ x };

    ghost is_infallible = { λ _. ⊤ };

    fn clone(&self) -> Result<Self, AllocError> {
        Ok(*self)
    }
}

/// The operands of a node, in order: at most two numbers.
#[derive(Drop)]
pub struct Operands<A> {
    ids: [ExprId<A>; 2],
    count: usize,
}

impl<A> Model for Operands<A> {
    ghost use Rattle.std.specs.Prelude.{ℕ, ◌≤◌, List, take};

    ghost Value = { List ℕ };

    ghost view = { λ o. take o.count o.ids };

    ghost invariant = { λ o. o.count ≤ 2 };
}

impl<A: Copy> Operands<A> {
    /// The operands' numbers.
    pub fn as_slice(&self) -> &[ExprId<A>]
        ensures { result.now ≡ self.now }
    {
        &self.ids[..self.count]
    }
}

impl<A: Copy> SymbolicExpr<A> {
    ghost use Rattle.air_symbolic.specs.Nodes.{operands};

    /// The node's operands; a leaf has none.
    pub fn operands(&self) -> Operands<A>
        ensures { result ≡ operands self.now }
    {
        let none = ExprId::new(0);
        let (ids, count) = match *self {
            SymbolicExpr::Leaf(_) => ([none, none], 0),
            SymbolicExpr::Neg { x, .. } => ([x, none], 1),
            SymbolicExpr::Add { x, y, .. }
            | SymbolicExpr::Sub { x, y, .. }
            | SymbolicExpr::Mul { x, y, .. } => ([x, y], 2),
        };
        Operands { ids, count }
    }
}
