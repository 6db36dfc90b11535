//! Names of the elements of a batch.
ghost use Rattle.std.specs.Prelude.{◌≡◌, Some, ⊤};
ghost use Rattle.air_core.specs.Texts.{element_text};

use crate::names::name::Name;
use std::alloc::AllocError;
use std::fmt;
use std::fmt::Display;

/// The name `[i]` of element i of a batch.
#[derive(Clone, Copy, Drop)]
pub struct Element(pub usize);

impl Display for Element {
    ghost output = { λ element. Some (element_text element.0) };

    fn fmt<W: fmt::Write>(&self, f: &mut fmt::Formatter<W>) -> fmt::Result {
        write!(f, "[{}]", self.0)
    }
}

impl Name for Element {
    type Output = Element;

    ghost can_evaluate = { λ _. ⊤ };

    ghost displays = { λ element text. text ≡ Some (element_text element.0) };

    fn evaluate(self) -> Result<Element, AllocError> {
        Ok(self)
    }
}
