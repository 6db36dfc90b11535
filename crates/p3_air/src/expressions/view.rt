//! Nodes: what a `&` to a body, or to a head without a receipt, points to, as a type without a lifetime.
ghost use Rattle.std.specs.Prelude.{◌≡◌, ◌≢◌, None, Some, Option, MatchOption};
ghost use base.Fml.{ffalse};
ghost use Rattle.p3_air.specs.declared.expressions.nodes.Body.{Body};
ghost use Rattle.air_tape.specs.Tapes.{Shows};
ghost use Rattle.p3_air.specs.HandleView.{linked, head_of, known, Known};

use crate::expressions::nodes::{Body, Expressions, Head};
use air_draft::Step;
use air_tape::tape::Receipt;
use std::marker::{Move, Owns};

/// An expression: a handle, which may be copied. The operators `+`, `-` and `*` join expressions and whole numbers.
pub type Expr<'a> = &'a Node;

/// What an expression points to: a step of some [`Expressions`](crate::Expressions). It exists only behind a `&`.
///
/// A `&'a Node` is a `&'a Body<'a>`, or, if memory ran out, a `&'a Head` without a receipt. So the type of an expression has no
/// lifetime but that of the `&`.
pub struct Node {
    head: Head,
}

impl Owns for Node {
    ghost Value = { Option Body };

    ghost shr_at = { λ l p κ. linked l p κ };
}

impl Move for Node {
    ghost own_val = { λ _ _. ffalse };
}

impl Node {
    /// The node of a body.
    pub(crate) fn of<'a>(body: &'a Body<'a>) -> &'a Node
        ensures { result.now ≡ Some body.now }
    {
        let node = body as *const Body<'a> as *const Node;
        unsafe { &*node }
    }

    /// The node without a step.
    pub(crate) fn lost<'a>(head: &'a Head) -> &'a Node
        requires { head.now.receipt ≡ None }
        ensures { result.now ≡ None }
    {
        let node = head as *const Head as *const Node;
        unsafe { &*node }
    }

    /// What both begin with.
    fn head<'a>(&'a self) -> &'a Head
        ensures { result.now ≡ head_of self.now }
    {
        let head = self as *const Node as *const Head;
        unsafe { &*head }
    }

    /// The body, where there is a step.
    fn body<'a>(&'a self) -> &'a Body<'a>
        requires { (head_of self.now).receipt ≢ None }
        ensures { self.now ≡ Some result.now }
    {
        let body = self as *const Node as *const Body<'a>;
        unsafe { &*body }
    }

    /// The expressions that it is one of, with what shows the step.
    pub(crate) fn entry<'a>(&'a self) -> Option<(&'a Expressions, &'a Receipt<Step>)>
        ensures { MatchOption result (known self.now ≡ None) (λ r.
            (known self.now ≡ Some (record { tape = r.0.now.steps; at = r.1.now }))
            × Shows r.0.now.steps r.1.now) }
    {
        if self.head().receipt.is_none() {
            return None;
        }
        let body = self.body();
        match &body.head.receipt {
            Some(receipt) => Some((body.expressions, receipt)),
            None => None,
        }
    }
}
