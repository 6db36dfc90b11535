//! The Fibonacci AIR: two columns a and b. The program audits a trace; tests and the benchmark use the AIR.
#![tactic(auto)]

ghost use Rattle.std.specs.Prelude.{◌≡◌, true, false, if◌then◌else◌, []};
ghost use Rattle.air_audit.specs.Labels.{LabelledBy};
ghost use Rattle.example_fibonacci.specs.Fibonacci.{fibonacci, fibonacci_declaration, FibonacciSays};

use air_audit::author::{
    Current, Equal, FirstRow, LastRow, Named, Next, Public, Sum, Transition, When, assert_all,
};
use air_audit::{Air, AirError, BaseAir, BoundaryPublic, NamedAirBuilder, RowMajorMatrix};

/// The Fibonacci AIR. The first row holds public values 0 and 1. Each next row holds b and a + b. The last row's b is
/// public value 2.
///
/// `with_labels` adds labels to the assertions; they change no value and no constraint index.
#[derive(Clone, Copy, Debug)]
pub struct Fibonacci {
    /// Whether the assertions have labels.
    pub is_named: bool,
}

impl Fibonacci {
    /// The AIR without labels.
    pub fn new() -> Self
        ensures { result.is_named ≡ false }
    {
        Fibonacci { is_named: false }
    }

    /// The AIR with labels.
    pub fn with_labels() -> Self
        ensures { result.is_named ≡ true }
    {
        Fibonacci { is_named: true }
    }

    /// The label of an assertion; the empty label means none.
    fn label(self, text: &'static str) -> &'static str
        ensures { result.now ≡ (if self.is_named then text.now else []) }
    {
        if self.is_named { text } else { "" }
    }
}

impl<F: Copy> BaseAir<F> for Fibonacci {
    ghost declaration = { λ _. fibonacci_declaration };

    fn width(&self) -> usize {
        2
    }

    fn num_public_values(&self) -> usize {
        3
    }

    fn preprocessed_trace(&self) -> Option<&RowMajorMatrix<F>> {
        None
    }

    fn periodic_columns(&self) -> &[Vec<F>] {
        &[]
    }

    fn public_boundary_io(&self) -> &[BoundaryPublic] {
        &[]
    }
}

impl<AB: NamedAirBuilder> Air<AB> for Fibonacci {
    ghost labels = { λ air a b. LabelledBy AB.labelled (FibonacciSays air.is_named) a b fibonacci };

    fn eval(&self, builder: &mut AB) -> Result<(), AirError> {
        let first_a = Named(self.label("fib::first_a"), Equal(Current(0), Public(0)));
        let first_b = Named(self.label("fib::first_b"), Equal(Current(1), Public(1)));
        let step_a = Named(self.label("fib::step_a"), Equal(Next(0), Current(1)));
        let sum = Sum(Current(0), Current(1));
        let step_b = Named(self.label("fib::step_b"), Equal(Next(1), sum));
        let last_b = Named(self.label("fib::last_b"), Equal(Current(1), Public(2)));
        let constraints = (
            When(FirstRow, (first_a, first_b)),
            When(Transition, (step_a, step_b)),
            When(LastRow, last_b),
        );
        assert_all(builder, &constraints)
    }
}
