//! A draft: all that was written down.
ghost use Rattle.std.specs.Prelude.{◌≡◌, [], length};
ghost use Rattle.air_draft.specs.Drafts.{beside_of};

use crate::fixed::Fixed;
use crate::notes::Notes;
use crate::step::Step;
use air_audit::Beside;
use air_field::Field;

/// All that was written down: what is noted, what is fixed, and the expressions. A call of an author writes one entry.
#[derive(Drop)]
pub struct Draft<F: Field> {
    /// The shape of the trace, and what is claimed of expressions.
    pub notes: Notes,
    /// The preprocessed trace, the periodic columns and the constants.
    pub fixed: Fixed<F>,
    /// The expressions: each is known by the number of its step.
    pub steps: Vec<Step>,
}

impl<F: Field> Draft<F> {
    // What its AIR has beside the constraints.
    pub(crate) fn into_beside(self) -> Beside<F>
        ensures { result ≡ beside_of self }
    {
        let Draft { notes, fixed, .. } = self;
        let Notes {
            width,
            num_public_values,
            boundary,
            ..
        } = notes;
        let Fixed {
            preprocessed,
            periodic,
            ..
        } = fixed;
        Beside {
            width,
            num_public_values,
            preprocessed,
            periodic,
            cells: boundary,
        }
    }
}
