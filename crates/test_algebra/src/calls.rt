//! The calls of one field and one extension of it. The first word of a line says whose call it is.

use crate::fields::{extension, field};
use crate::rings::{ext_field_ring, field_ring};
use air_field::{DomainExtension, PrimeField64};
use std::alloc::Global;
use std::marker::PhantomData;
use test_lines::{Bench, Fault, Line, Why};

/// The bench has no state: a line's values last for that line only.
#[derive(Drop)]
pub struct Calls<F: PrimeField64, EF: DomainExtension<F>> {
    alloc: Global,
    field: PhantomData<F>,
    extension: PhantomData<EF>,
}

impl<'a, F: PrimeField64 + DomainExtension<F>, EF: DomainExtension<F>> Bench<'a> for Calls<F, EF> {
    fn new(alloc: Global) -> Self {
        Calls {
            alloc,
            field: PhantomData,
            extension: PhantomData,
        }
    }

    fn answer(&mut self, line: &Line<'a>, text: &mut String) -> Result<(), Fault> {
        let alloc = self.alloc;
        let words = line.words.as_slice();
        let [word, call @ ..] = words else {
            return Err(Fault::Unreadable(Why::NoSuchCall));
        };
        match *word {
            "Extension" => extension::<F, EF>(alloc, call, text),
            "Itself" => extension::<F, F>(alloc, call, text),
            "FieldRing" => field_ring::<F>(alloc, call, text),
            "ExtFieldRing" => ext_field_ring::<F, EF>(alloc, call, text),
            _ => field::<F>(words, text),
        }
    }

    fn show_state(&self, _text: &mut String) -> Result<(), Fault> {
        Ok(())
    }
}
