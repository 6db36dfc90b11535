//! The hints of an AIR: the default hints, and an AIR that overrides one.
ghost use Rattle.std.specs.Prelude.{⊤, None, []};
ghost use Rattle.air_builder.specs.Declaration.{plain_declaration};

use crate::airs::show_said;
use air_builder::{AirError, BaseAir, BoundaryPublic};
use air_field::{Field, RowMajorMatrix};
use example_fibonacci::Fibonacci;
use std::alloc::Global;
use test_lines::{Fault, Why};

/// An AIR of three columns without constraints. Its only hint: of the next row only column 1 is read.
struct OneHint;

impl<F: Field> BaseAir<F> for OneHint {
    ghost declaration = { λ _. plain_declaration [] 3 0 };

    ghost has_own_next_row_columns = { λ _. ⊤ };

    fn width(&self) -> usize {
        3
    }

    fn num_public_values(&self) -> usize {
        0
    }

    fn preprocessed_trace(&self) -> Option<&RowMajorMatrix<F>> {
        None
    }

    fn periodic_columns(&self) -> &[Vec<F>] {
        &[]
    }

    fn main_next_row_columns(&self, alloc: Global) -> Result<Vec<usize>, AirError> {
        Ok([1].to_vec(alloc)?)
    }

    fn public_boundary_io(&self) -> &[BoundaryPublic] {
        &[]
    }
}

/// Adds a hint. `fibonacci` has the default hints; `one_hint` overrides one.
pub fn hint<F: Field>(alloc: Global, call: &[&str], text: &mut String) -> Result<(), Fault> {
    let [air, call] = call else {
        return Err(Fault::Unreadable(Why::NoSuchCall));
    };
    match *air {
        "fibonacci" => show_said::<F, Fibonacci>(alloc, &Fibonacci::new(), *call, text),
        "one_hint" => show_said::<F, OneHint>(alloc, &OneHint, *call, text),
        _ => Err(Fault::Unreadable(Why::NoSuchName)),
    }
}
