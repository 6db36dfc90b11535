//! Names, and implementations for texts and closures.
ghost use Rattle.std.specs.Prelude.{◌≡◌, ℕ, List, Option, Some, Ok, IfOk, ⊤};

use std::alloc::AllocError;
use std::fmt::Display;

/// The name of a constraint. It is evaluated at most once.
pub trait Name: Drop {
    /// The evaluated name, which can be displayed.
    type Output: Display + Drop;

    /// The name may be evaluated.
    ghost can_evaluate: { Self → Type 0 };

    /// A text that the evaluated name may display. `None` is a text that nothing is known of.
    ghost displays: { Self → Option (List ℕ) → Type 0 };

    /// Evaluates the name, which `can_evaluate` must allow: what a closure requires must hold. Fails only when out of
    /// memory.
    fn evaluate(self) -> Result<Self::Output, AllocError>
        requires { can_evaluate self }
        ensures { IfOk result (λ shown. displays self (Self.Output.output shown)) };
}

impl Name for &'static str {
    type Output = &'static str;

    ghost can_evaluate = { λ _. ⊤ };

    ghost displays = { λ name text. text ≡ Some name.now };

    fn evaluate(self) -> Result<&'static str, AllocError> {
        Ok(self)
    }
}

/// A name that a closure makes when it is needed.
#[derive(Drop)]
pub struct Lazy<F>(pub F);

impl<D: Display + Drop, F: FnOnce() -> Result<D, AllocError> + Drop> Name for Lazy<F> {
    type Output = D;

    ghost can_evaluate = { λ name. F.pre name.0 };

    ghost displays = { λ name text. (shown : D) × F.post name.0 (Ok shown) × (text ≡ D.output shown) };

    fn evaluate(self) -> Result<D, AllocError> {
        let Lazy(make) = self;
        make()
    }
}
