//! What an AIR has of field elements, beside its constraints.
ghost use Rattle.std.specs.Prelude.{◌≡◌, ◌∷◌, ◌++◌, [], length, map, None, Some, IfOk};
ghost use Rattle.air_field.specs.Ring.{image};
ghost use Rattle.air_draft.specs.DraftEntries.{OneMore};

use air_field::{Field, RowMajorMatrix};
use std::alloc::{AllocError, Global};

/// What an AIR fixes: the preprocessed trace, the periodic columns and the field's constants that its steps name.
#[derive(Drop)]
pub struct Fixed<F: Field> {
    /// The preprocessed trace, if there is one.
    pub preprocessed: Option<RowMajorMatrix<F>>,
    /// The periodic columns, each the values of one period.
    pub periodic: Vec<Vec<F>>,
    /// The constants of the field that steps name by their places here.
    pub constants: Vec<F>,
}

impl<F: Field> Fixed<F> {
    /// Nothing fixed yet.
    pub fn new(alloc: Global) -> Self
        ensures preprocessed { result.preprocessed ≡ None }
        ensures periodic { result.periodic.items ≡ [] }
        ensures constants { result.constants.items ≡ [] }
    {
        Fixed {
            preprocessed: None,
            periodic: Vec::new(alloc),
            constants: Vec::new(alloc),
        }
    }

    /// With a preprocessed trace. Its height must be that of the main trace when it is audited.
    pub fn with_preprocessed(self, table: RowMajorMatrix<F>) -> Self
        ensures { result ≡ record self { preprocessed = Some table } }
    {
        let mut fixed = self;
        fixed.preprocessed = Some(table);
        fixed
    }

    /// With one more periodic column: the values of one period.
    pub fn with_periodic(self, column: Vec<F>) -> Result<Self, AllocError>
        ensures others { IfOk result (λ r. r ≡ record self { periodic = r.periodic }) }
        ensures added { IfOk result (λ r. r.periodic.items ≡ self.periodic.items ++ column ∷ []) }
    {
        let mut fixed = self;
        fixed.periodic.push(column)?;
        Ok(fixed)
    }

    /// With one more periodic column, of whole numbers: the values of one period.
    pub fn with_periodic_numbers(self, numbers: &[u64]) -> Result<Self, AllocError>
        ensures others { IfOk result (λ r. r ≡ record self { periodic = r.periodic }) }
        ensures added { IfOk result (λ r. OneMore (λ v. v.items ≡ map (image F.ring) numbers.now)
            self.periodic.items r.periodic.items) }
    {
        let column = elements_of(*self.periodic.allocator(), numbers)?;
        self.with_periodic(column)
    }

    /// Adds a constant of the field and returns its place among them.
    pub fn constant(&mut self, c: F) -> Result<usize, AllocError>
        ensures others { self.new ≡ record self.old { constants = self.new.constants } }
        ensures place { IfOk result (λ place. (place ≡ length self.old.constants.items)
            × (self.new.constants.items ≡ self.old.constants.items ++ c ∷ [])) }
    {
        let place = self.constants.len();
        self.constants.push(c)?;
        Ok(place)
    }
}

// The elements of whole numbers.
fn elements_of<F: Field>(alloc: Global, numbers: &[u64]) -> Result<Vec<F>, AllocError>
    ensures { IfOk result (λ v. v.items ≡ map (image F.ring) numbers.now) }
{
    let mut elements = Vec::new(alloc);
    for n in numbers {
        elements.push(F::from_u64(*n))?;
    }
    Ok(elements)
}
