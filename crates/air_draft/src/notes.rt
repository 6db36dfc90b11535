//! What an author notes that names no element of a field.
ghost use Rattle.std.specs.Prelude.{◌≡◌, ◌∷◌, [], length, None, IfOk, string_bytes};
ghost use Rattle.air_core.specs.Texts.{element_text};
ghost use Rattle.air_draft.specs.DraftTerms.{factors_of};
ghost use Rattle.air_draft.specs.DraftEntries.{NotesFault, WritesClaim, WritesCondition, WritesLabel, label_text, AddsColumns, AddsBoundary};

use crate::claim::{Claim, Factor};
use air_core::AirError;
use air_core::boundary::BoundaryPublic;
use std::alloc::{AllocError, Global};

/// What an author notes that names no element of a field: the shape of the trace, boundary values, and what is claimed of
/// expressions, which are named by the numbers of their steps.
#[derive(Drop)]
pub struct Notes {
    /// The number of columns of the main trace.
    pub width: usize,
    pub num_public_values: usize,
    /// The boundary values.
    pub boundary: Vec<BoundaryPublic>,
    /// The conditions of claims: each lists its factors, the innermost first.
    pub conditions: Vec<Vec<Factor>>,
    pub labels: Vec<String>,
    pub claims: Vec<Claim>,
    /// What went wrong first, if anything did.
    pub fault: Option<AirError>,
}

impl Notes {
    /// No notes yet, of an AIR whose main trace has `width` columns.
    pub fn new(alloc: Global, width: usize) -> Self
        ensures width { result.width ≡ width }
        ensures public_values { result.num_public_values ≡ 0 }
        ensures boundary { result.boundary.items ≡ [] }
        ensures conditions { result.conditions.items ≡ [] }
        ensures labels { result.labels.items ≡ [] }
        ensures claims { result.claims.items ≡ [] }
        ensures fault { result.fault ≡ None }
    {
        Notes {
            width,
            num_public_values: 0,
            boundary: Vec::new(alloc),
            conditions: Vec::new(alloc),
            labels: Vec::new(alloc),
            claims: Vec::new(alloc),
            fault: None,
        }
    }

    /// Notes a fault, if it is the first.
    pub fn fail(&mut self, error: AirError)
        ensures { NotesFault error self.old self.new }
    {
        if self.fault.is_none() {
            self.fault = Some(error);
        }
    }

    /// Writes a claim down.
    pub fn claim(&mut self, claim: Claim)
        ensures { WritesClaim claim self.old self.new }
    {
        if self.claims.push(claim).is_err() {
            self.fail(AirError::Memory);
        }
    }

    // The factors of a condition under another one, if there is one.
    fn factors_under(&self, outer: Option<usize>, factor: Factor) -> Result<Vec<Factor>, AllocError>
        ensures { IfOk result (λ v. v.items ≡ factor ∷ factors_of self.now.conditions.items outer) }
    {
        let mut factors = Vec::new(*self.conditions.allocator());
        factors.push(factor)?;
        if let Some(outer) = outer {
            if let Some(others) = self.conditions.get(outer) {
                factors.extend_from_slice(others)?;
            }
        }
        Ok(factors)
    }

    /// Writes a condition down, under an outer one if there is one, and answers its number.
    pub fn condition(&mut self, outer: Option<usize>, factor: Factor) -> usize
        ensures number { result ≡ length self.old.conditions.items }
        ensures written { WritesCondition (factor ∷ factors_of self.old.conditions.items outer)
            self.old self.new }
    {
        let number = self.conditions.len();
        match self.factors_under(outer, factor) {
            Ok(factors) => {
                if self.conditions.push(factors).is_err() {
                    self.fail(AirError::Memory);
                }
            }
            Err(_) => self.fail(AirError::Memory),
        }
        number
    }

    // The text of a label under another one, if there is one.
    fn text_under(&self, outer: Option<usize>, text: &str) -> Result<String, AllocError>
        ensures { IfOk result (λ label. string_bytes label
            ≡ label_text self.now.labels.items outer text.now) }
    {
        let mut label = String::new(*self.labels.allocator());
        if let Some(outer) = outer {
            if let Some(other) = self.labels.get(outer) {
                label.push_str(other)?;
                label.push_str("::")?;
            }
        }
        label.push_str(text)?;
        Ok(label)
    }

    /// Writes a label down, under an outer one if there is one, and answers its number.
    pub fn label(&mut self, outer: Option<usize>, text: &str) -> usize
        ensures number { result ≡ length self.old.labels.items }
        ensures written { WritesLabel (label_text self.old.labels.items outer text.now) self.old
            self.new }
    {
        let number = self.labels.len();
        match self.text_under(outer, text) {
            Ok(label) => {
                if self.labels.push(label).is_err() {
                    self.fail(AirError::Memory);
                }
            }
            Err(_) => self.fail(AirError::Memory),
        }
        number
    }

    /// Writes the label `[index]` down, under an outer one if there is one, and answers its number.
    pub fn index_label(&mut self, outer: Option<usize>, index: usize) -> usize
        ensures number { result ≡ length self.old.labels.items }
        ensures written { WritesLabel
            (label_text self.old.labels.items outer (element_text index)) self.old self.new }
    {
        match format!(in *self.labels.allocator(); "[{index}]") {
            Ok(text) => self.label(outer, &text),
            Err(_) => {
                self.fail(AirError::Memory);
                self.labels.len()
            }
        }
    }

    /// Adds columns to the main trace and answers the first one's index.
    pub fn columns(&mut self, count: usize) -> usize
        ensures first { result ≡ self.old.width }
        ensures added { AddsColumns count self.old self.new }
    {
        let first = self.width;
        match first.checked_add(count) {
            Some(width) => self.width = width,
            None => self.fail(AirError::CountOverflow),
        }
        first
    }

    /// Adds a boundary value.
    pub fn add_boundary(&mut self, cell: BoundaryPublic)
        ensures { AddsBoundary cell self.old self.new }
    {
        if self.boundary.push(cell).is_err() {
            self.fail(AirError::Memory);
        }
    }
}
