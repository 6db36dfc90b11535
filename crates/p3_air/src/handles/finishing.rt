//! The draft and the AIR that constraints make.
ghost use Rattle.std.specs.Prelude.{◌≡◌, None, IfOk, IfErr, map, string_bytes};
ghost use Rattle.air_draft.specs.Drafts.{beside_from, claim_labels, RecordsDraft, DraftRefuses};
ghost use Rattle.air_draft.specs.declared.draft.Draft.{Draft as DraftRecord};
ghost use Rattle.air_draft.specs.declared.fixed.Fixed.{Fixed as FixedRecord};
ghost use Rattle.p3_air.specs.HandleClaims.{OnlyFault};
ghost use Rattle.p3_air.specs.HandleDrafts.{ListsTape, IsDraftOf, IsDraftWith, FixesNothing};

use crate::expressions::listing::Listing;
use crate::handles::constraints::Constraints;
use air_audit::{BaseAir, FlatAir};
use air_core::AirError;
use air_draft::{Draft, Fixed, Step};
use air_field::Field;

impl<'a> Constraints<'a> {
    // Takes over what went wrong first among the expressions.
    fn settle(&mut self)
        ensures others { OnlyFault self.old self.new }
        ensures kept { self.new.notes.fault ≡ None → self.old.notes.fault ≡ None }
    {
        if let Some(error) = self.expressions.fault() {
            self.notes.fail(error);
        }
    }

    // The steps of the expressions. Where memory runs out they are none, and that is noted.
    fn list(&mut self) -> Vec<Step>
        ensures others { OnlyFault self.old self.new }
        ensures listed { self.new.notes.fault ≡ None → (self.old.notes.fault ≡ None)
            × ListsTape self.old.expressions.now.steps result.items }
    {
        let alloc = *self.notes.claims.allocator();
        match self.expressions.listing(alloc) {
            Ok(listing) => listing.into_steps(),
            Err(_) => {
                self.notes.fail(AirError::Memory);
                Vec::new(alloc)
            }
        }
    }

    /// All that was written, with what the AIR fixes: the draft with all steps of the expressions.
    pub fn into_draft<F: Field>(self, fixed: Fixed<F>) -> Draft<F>
        ensures { IsDraftOf self.entry fixed result }
    {
        let mut constraints = self;
        constraints.settle();
        let steps = constraints.list();
        let Constraints { notes, .. } = constraints;
        Draft {
            notes,
            fixed,
            steps,
        }
    }

    /// The draft, and the list of its steps, in which [`Listing::get`] finds the step that an expression's call wrote. It
    /// refuses what went wrong first while it was written.
    pub fn into_listed<F: Field>(self, fixed: Fixed<F>) -> Result<(Draft<F>, Listing), AirError>
        ensures draft { IfOk result (λ r. (r.0.notes ≡ self.entry.notes) × (r.0.fixed ≡ fixed)
            × (r.0.notes.fault ≡ None)) }
        ensures listing { IfOk result (λ r. (r.1.listed.items.items ≡ r.0.steps.items)
            × (r.1.listed.tape.value ≡ self.entry.expressions.now.steps)) }
    {
        let Constraints { expressions, notes } = self;
        if let Some(error) = notes.fault {
            return Err(error);
        }
        if let Some(error) = expressions.fault() {
            return Err(error);
        }
        let alloc = *notes.claims.allocator();
        let listing = expressions.listing(alloc)?;
        let steps = listing.copied_steps(alloc)?;
        let draft = Draft {
            notes,
            fixed,
            steps,
        };
        Ok((draft, listing))
    }

    /// The AIR that declares the claims, in order. It refuses what went wrong first while it was written: `Memory`,
    /// an expression of others (`ForeignExpression`), a degree past `usize` (`DegreeOverflow`). An entry that isn't there is
    /// refused by the audit.
    pub fn into_air<F: Field>(self) -> Result<FlatAir<F>, AirError>
        ensures records { IfOk result (λ a. (d : DraftRecord F) × IsDraftWith FixesNothing
            self.entry d
            × (d.notes.fault ≡ None)
            × RecordsDraft F.ring F.ONE d (⟦<FlatAir<F> as BaseAir<F>>⟧.declaration a).constraints) }
        ensures beside { IfOk result (λ a. (f : FixedRecord F) × FixesNothing f
            × (a.beside ≡ beside_from self.entry.notes f)) }
        ensures labels { IfOk result (λ a. map string_bytes a.labels.items
            ≡ claim_labels self.entry.notes.labels.items self.entry.notes.claims.items) }
        ensures refused { IfErr result (λ e. (d : DraftRecord F) × IsDraftWith FixesNothing
            self.entry d
            × DraftRefuses F.ring F.ONE d e) }
    {
        let fixed = Fixed::new(*self.notes.claims.allocator());
        self.into_air_with(fixed)
    }

    /// The AIR, with a preprocessed trace, periodic columns and constants; see [`Constraints::into_air`].
    pub fn into_air_with<F: Field>(self, fixed: Fixed<F>) -> Result<FlatAir<F>, AirError>
        ensures records { IfOk result (λ a. (d : DraftRecord F) × IsDraftOf self.entry fixed d
            × (d.notes.fault ≡ None)
            × RecordsDraft F.ring F.ONE d (⟦<FlatAir<F> as BaseAir<F>>⟧.declaration a).constraints) }
        ensures beside { IfOk result (λ a. a.beside ≡ beside_from self.entry.notes fixed) }
        ensures labels { IfOk result (λ a. map string_bytes a.labels.items
            ≡ claim_labels self.entry.notes.labels.items self.entry.notes.claims.items) }
        ensures refused { IfErr result (λ e. (d : DraftRecord F) × IsDraftOf self.entry fixed d
            × DraftRefuses F.ring F.ONE d e) }
    {
        self.into_draft(fixed).into_air()
    }
}
