//! A draft with constraints over an extension.
ghost use Rattle.std.specs.Prelude.{◌≡◌, [], length};
ghost use Rattle.air_draft.specs.DraftEntries.{WritesExtStep};

use crate::draft::Draft;
use crate::ext_step::ExtStep;
use air_core::AirError;
use air_field::{ExtensionField, Field};
use std::alloc::Global;

/// What was written down, with expressions over an extension. The claims of both kinds are in one list, that of the base
/// draft, as they were written.
#[derive(Drop)]
pub struct ExtDraft<F: Field, EF: ExtensionField<F>> {
    /// The shape of the trace, the base expressions, and all claims.
    pub base: Draft<F>,
    /// The expressions over the extension: each is known by the number of its step.
    pub steps: Vec<ExtStep<F, EF>>,
}

impl<F: Field, EF: ExtensionField<F>> ExtDraft<F, EF> {
    /// A draft that has nothing over the extension yet.
    pub fn new(base: Draft<F>) -> Self
        ensures base { result.base ≡ base }
        ensures steps { result.steps.items ≡ [] }
    {
        let steps = Vec::new(*base.steps.allocator());
        ExtDraft { base, steps }
    }

    /// Writes a step over the extension down and answers its number.
    pub fn step(&mut self, step: ExtStep<F, EF>) -> usize
        ensures number { result ≡ length self.old.steps.items }
        ensures written { WritesExtStep step self.old self.new }
    {
        let number = self.steps.len();
        if self.steps.push(step).is_err() {
            self.base.notes.fail(AirError::Memory);
        }
        number
    }
}
