//! Lists that grow.
ghost use Rattle.std.specs.Prelude.{◌≡◌, [], ◌∷◌, ◌++◌, OnOk, IfErr};
ghost use Rattle.air_core.specs.declared.errors.AirError.{AirError};

use air_builder::AirError;

/// Adds an element at the end.
pub(crate) fn push<T: Copy>(items: &mut Vec<T>, x: T) -> Result<(), AirError>
    ensures ok { OnOk result (items.new.items ≡ items.old.items ++ x ∷ []) }
    ensures refused { IfErr result (λ e. e ≡ AirError.Memory) }
{
    match items.push(x) {
        Ok(()) => Ok(()),
        Err(_) => Err(AirError::Memory),
    }
}
