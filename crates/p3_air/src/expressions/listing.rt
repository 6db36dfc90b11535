//! All steps of expressions.
ghost use Rattle.std.specs.Prelude.{◌≡◌, ◌≤◌, length, slice_get, Some, IfOk, IfSome, IsSomeAnd, MatchOption};
ghost use Rattle.p3_air.specs.HandleView.{known};
ghost use Rattle.p3_air.specs.HandleSteps.{IsOf};

use crate::expressions::view::Expr;
use air_draft::Step;
use air_tape::listing::Listing as Listed;
use std::alloc::{AllocError, Global};

/// All steps of expressions, in order.
#[derive(Drop)]
pub struct Listing {
    pub(crate) listed: Listed<Step>,
}

impl Listing {
    /// The step that an expression's call wrote, which has its number here. None if the list is shorter: the expression was
    /// made later, or has no step.
    pub fn get(&self, x: Expr) -> Option<Step>
        requires { IsOf self.now.listed.tape.value x.now }
        ensures { MatchOption result
            (IfSome (known x.now) (λ k. length self.now.listed.items.items ≤ k.at.index))
            (λ s. IsSomeAnd (known x.now) (λ k. (s ≡ k.at.value)
            × (slice_get self.now.listed.items.items k.at.index ≡ Some s))) }
    {
        let (_, receipt) = x.entry()?;
        self.listed.get(receipt).copied()
    }

    /// The steps.
    pub fn steps(&self) -> &[Step]
        ensures { result.now ≡ self.now.listed.items.items }
    {
        &self.listed.items
    }

    /// A copy of the steps.
    pub fn copied_steps(&self, alloc: Global) -> Result<Vec<Step>, AllocError>
        ensures { IfOk result (λ v. v.items ≡ self.now.listed.items.items) }
    {
        let mut steps = Vec::new(alloc);
        steps.extend_from_slice(&self.listed.items)?;
        Ok(steps)
    }

    /// The steps, which are moved out.
    pub fn into_steps(self) -> Vec<Step>
        ensures { result ≡ self.listed.items }
    {
        let Listing { listed } = self;
        let Listed { items, .. } = listed;
        items
    }
}
