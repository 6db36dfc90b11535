//! The parts of an AIR other than its expressions.

use crate::lists::{BaseList, Constraints, PermutationList};
use crate::words::{cell_of, trace_of};
use air_audit::{Beside, Field};
use std::alloc::Global;
use test_lines::words::{count_of, listed_elements};
use test_lines::{Fault, Why};

/// The parts of an AIR other than its expressions.
#[derive(Drop)]
pub struct Parts<F: Field> {
    pub constraints: Constraints,
    pub beside: Beside<F>,
}

// The constraints of a name.
fn named_constraints(word: &str) -> Result<Constraints, Fault> {
    match word {
        "fibonacci" => Ok(Constraints::Base(BaseList::Fibonacci)),
        "fibonacci_named" => Ok(Constraints::Base(BaseList::FibonacciNamed)),
        "handed" => Ok(Constraints::Base(BaseList::Handed)),
        "differing" => Ok(Constraints::Base(BaseList::Differing)),
        "permuted" => Ok(Constraints::Permutation(PermutationList::Permuted)),
        "mixed" => Ok(Constraints::Permutation(PermutationList::Mixed)),
        "labelled" => Ok(Constraints::Labelled),
        _ => Err(Fault::Unreadable(Why::NoSuchWord)),
    }
}

impl<F: Field> Parts<F> {
    pub fn new(alloc: Global) -> Self {
        Parts {
            constraints: Constraints::Base(BaseList::Lines),
            beside: Beside::new(alloc, 0, 0),
        }
    }

    // Sets a count.
    fn set_count(&mut self, key: &str, count: usize) {
        match key {
            "width" => self.beside.width = count,
            "public" => self.beside.num_public_values = count,
            _ => self.constraints = Constraints::Base(BaseList::Steep(count)),
        }
    }

    fn set_table(&mut self, value: &str) -> Result<(), Fault> {
        let table = trace_of(*self.beside.periodic.allocator(), value)?;
        self.beside.preprocessed = Some(table);
        Ok(())
    }

    fn push_periodic(&mut self, value: &str) -> Result<(), Fault> {
        let column = listed_elements(*self.beside.periodic.allocator(), value)?;
        Ok(self.beside.periodic.push(column)?)
    }

    fn push_cell(&mut self, value: &str) -> Result<(), Fault> {
        let cell = cell_of(value)?;
        Ok(self.beside.cells.push(cell)?)
    }

    /// Sets the part that a word `KEY:VALUE` gives.
    pub fn set(&mut self, key: &str, value: &str) -> Result<(), Fault> {
        match key {
            "width" | "public" | "steep" => {
                self.set_count(key, count_of(value)?);
                Ok(())
            }
            "table" => self.set_table(value),
            "periodic" => self.push_periodic(value),
            "cell" => self.push_cell(value),
            _ => Err(Fault::Unreadable(Why::NoSuchWord)),
        }
    }

    /// Sets the named list of constraints.
    pub fn take(&mut self, word: &str) -> Result<(), Fault> {
        self.constraints = named_constraints(word)?;
        Ok(())
    }
}
