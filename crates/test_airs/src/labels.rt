//! Names given as words.
ghost use Rattle.std.specs.Prelude.{◌≡◌, Some, ⊤};

use air_core::{Name, Namespace, NamespaceExt};
use std::alloc::AllocError;

/// The name of a word; `-` is the empty name.
#[derive(Clone, Copy, Drop)]
pub struct Label<'a>(&'a str);

impl<'a> Label<'a> {
    pub fn new(word: &'a str) -> Self {
        match word {
            "-" => Label(""),
            _ => Label(word),
        }
    }
}

impl<'a> Name for Label<'a> {
    type Output = &'a str;

    ghost can_evaluate = { λ _. ⊤ };

    ghost displays = { λ name text. text ≡ Some name.0.now };

    fn evaluate(self) -> Result<&'a str, AllocError> {
        Ok(self.0)
    }
}

impl<'a> Namespace for Label<'a> {}

impl<'a> NamespaceExt for Label<'a> {}
