//! Names that set a counter when they are read, and assertions under such names. (Over any builder, which is proved
//! much sooner than at a concrete one.)
ghost use Rattle.std.specs.Prelude.{⊤};

use air_audit::{
    AirBuilder, AirError, Algebra, ExtensionBuilder, Lazy, Name, NamedAirBuilder,
    NamedExtensionBuilder, Namespace,
};
use std::alloc::AllocError;
use std::cell::Cell;

/// A name that sets a counter to 1 when it is read.
#[derive(Clone, Copy, Drop)]
pub struct Asking<'a>(pub &'a Cell<u32>);

impl Name for Asking<'_> {
    type Output = &'static str;

    ghost can_evaluate = { λ _. ⊤ };

    ghost displays = { λ _ _. ⊤ };

    fn evaluate(self) -> Result<&'static str, AllocError> {
        self.0.set(1);
        Ok("asked")
    }
}

impl Namespace for Asking<'_> {}

/// Asserts that `x` is zero, under a name that is made only when it is read, which sets a counter to 1.
pub fn zero_asking<AB: NamedAirBuilder>(
    builder: &mut AB,
    x: AB::Expr,
    asked: &Cell<u32>,
) -> Result<(), AirError>
    requires ready { AB.ready builder.old }
    requires of_ring { AB.Ring.has (AB.ring_of builder.old) x }
{
    builder.assert_zero_named(
        x,
        Lazy(|| {
            asked.set(1);
            Ok("base")
        }),
    )
}

/// Asserts over the extension that `x` is zero, under a name that sets the counter to 2.
pub fn zero_ext_asking<AB: NamedExtensionBuilder>(
    builder: &mut AB,
    x: AB::ExprEF,
    asked: &Cell<u32>,
) -> Result<(), AirError>
    requires ready { AB.ready builder.old }
    requires of_ring { AB.ExtRing.has (AB.ext_ring_of builder.old) x }
    ensures { AB.kept builder.old builder.new }
{
    builder.assert_zero_ext_named(
        x,
        Lazy(|| {
            asked.set(2);
            Ok("extension")
        }),
    )
}
