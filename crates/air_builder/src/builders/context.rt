//! Builders with a context.
ghost use Rattle.std.specs.Prelude.{◌≡◌};

use crate::builders::air_builder::AirBuilder;
use crate::builders::filtered::FilteredAirBuilder;

/// A builder that passes AIRs a context.
pub trait AirBuilderWithContext: AirBuilder {
    /// The context that AIRs are passed.
    type EvalContext;

    ghost context: { Self → Self.EvalContext };

    /// The context, which stays the same while constraints are asserted.
    fn eval_context(&self) -> &Self::EvalContext
        ensures { result.now ≡ context self.now };

    // keeping a builder keeps its context
    ghost context_kept: { (a b : Self) → Self.kept a b → context b ≡ context a };
}

impl<'a, AB: AirBuilderWithContext> AirBuilderWithContext for FilteredAirBuilder<'a, AB> {
    type EvalContext = AB::EvalContext;

    ghost context = { λ f. AB.context f.inner.now };

    ghost context_kept = { λ f g k. AB.context_kept f.inner.now g.inner.now k.inside };

    #[inline(always)]
    fn eval_context(&self) -> &AB::EvalContext {
        self.inner.eval_context()
    }
}
