//! Builders with a permutation trace.
ghost use Rattle.std.specs.Prelude.{◌≡◌, ◌↔◌, ◌≤◌, ◌<◌, None, IfOk, IfErr, IfSome};
ghost use Rattle.air_field.specs.Term.{permutation, challenge, permutation_value};
ghost use Rattle.air_builder.specs.Builders.{RowReadsAs, VariableReadsAs};
ghost use Rattle.air_builder.specs.Refusals.{RowEnds};
ghost use Rattle.air_builder.specs.Extensions.{RefusesWindow};

use crate::builders::air_builder::AirBuilder;
use crate::builders::extension::ExtensionBuilder;
use crate::builders::view::View;
use air_core::errors::AirError;
use air_core::windows::access::WindowAccess;
use air_field::{Algebra, FromVar};

/// A builder with a permutation trace over the extension, its challenges, and the values that the permutation argument
/// exposes.
pub trait PermutationAirBuilder: ExtensionBuilder
where
    Self::ExtRing: FromVar<Self::F, Self::RandomVar> + FromVar<Self::F, Self::PermutationVar>,
{
    /// The window of the permutation trace.
    type MP: WindowAccess<Self::VarEF> + Drop;

    /// The challenges.
    type RandomVar: Copy;

    /// The values that the permutation argument exposes.
    type PermutationVar: Copy;

    /// The window of the permutation trace. It may fail as `main` may, and with `NoPermutation`, only if the builder
    /// has no permutation column.
    fn permutation(&self) -> Result<Self::MP, AirError>
        ensures window { IfOk result Self.MP.is_window }
        ensures current { IfOk result (λ w. RowReadsAs Self.ExtRing.FromVar-1.var_means
            (λ i. Self.reads_as self.now (permutation 0 i)) (Self.MP.current_row w)) }
        ensures next { IfOk result (λ w. RowReadsAs Self.ExtRing.FromVar-1.var_means
            (λ i. Self.reads_as self.now (permutation 1 i)) (Self.MP.next_row w)) }
        ensures current_ends { IfOk result (λ w. RowEnds (Self.missing self.now)
            (λ i. permutation 0 i) (Self.MP.current_row w)) }
        ensures next_ends { IfOk result (λ w. RowEnds (Self.missing self.now) (λ i. permutation 1 i)
            (Self.MP.next_row w)) }
        ensures refused { IfErr result (RefusesWindow ⟦<Self as View>⟧.view self.now) };

    /// The variable in a column of the permutation trace, if there is one: at offset 0 the current row's, at 1 the next
    /// row's. It fails as `permutation` does.
    #[inline(always)]
    fn permutation_variable(
        &self,
        offset: usize,
        column: usize,
    ) -> Result<Option<Self::VarEF>, AirError>
        ensures found { IfOk result (λ o. IfSome o (VariableReadsAs Self.ExtRing.FromVar-1.var_means
            (Self.reads_as self.now) (permutation offset column))) }
        ensures none { offset ≤ 1 → IfOk result (λ o. (o ≡ None) ↔ Self.missing self.now
            (permutation offset column)) }
        ensures past { 1 < offset → IfOk result (λ o. o ≡ None) }
        ensures refused { IfErr result (RefusesWindow ⟦<Self as View>⟧.view self.now) }
    {
        let window = self.permutation()?;
        match offset {
            0 => Ok(window.current(column)),
            1 => Ok(window.next(column)),
            _ => Ok(None),
        }
    }

    /// The challenges.
    fn permutation_randomness(&self) -> &[Self::RandomVar]
        ensures reads_as { RowReadsAs Self.ExtRing.FromVar-2.var_means
            (λ i. Self.reads_as self.now (challenge i)) result.now }
        ensures ends { RowEnds (Self.missing self.now) challenge result.now };

    /// The values that the permutation argument exposes.
    fn permutation_values(&self) -> &[Self::PermutationVar]
        ensures reads_as { RowReadsAs Self.ExtRing.FromVar-3.var_means
            (λ i. Self.reads_as self.now (permutation_value i)) result.now }
        ensures ends { RowEnds (Self.missing self.now) permutation_value result.now };
}
