//! Rows of variables.
ghost use Rattle.std.specs.Prelude.{◌≡◌, length, IfOk, IfErr};
ghost use Rattle.air_core.specs.declared.variables.entry.BaseEntry.TheVariants.{Preprocessed, Periodic, Public};
ghost use Rattle.air_core.specs.declared.variables.ext_entry.ExtEntry.TheVariants.{Challenge, PermutationValue};
ghost use Rattle.air_recording.specs.Rows.{IsRowOf, IsExtRowOf};

use crate::layouts::air_layout::AirLayout;
use air_builder::{AirError, TwoRows};
use air_field::{ExtensionField, Field};
use air_symbolic::{BaseEntry, ExtEntry, SymbolicVariable, SymbolicVariableExt};
use std::alloc::Global;

/// The variables of an entry, one for each column.
pub(crate) fn variables_of<F>(
    alloc: Global,
    entry: BaseEntry,
    width: usize,
) -> Result<Vec<SymbolicVariable<F>>, AirError>
    ensures row { IfOk result (λ row. IsRowOf entry width row.items) }
    ensures refused { IfErr result (λ e. e ≡ AirError.Memory) }
{
    let mut row = Vec::with_capacity(alloc, width)?;
    for i in 0..width {
        row.push(SymbolicVariable::new(entry, i))?;
    }
    Ok(row)
}

/// The extension variables of an entry, one for each column.
pub(crate) fn ext_variables_of<F, EF>(
    alloc: Global,
    entry: ExtEntry,
    width: usize,
) -> Result<Vec<SymbolicVariableExt<F, EF>>, AirError>
    ensures row { IfOk result (λ row. IsExtRowOf entry width row.items) }
    ensures refused { IfErr result (λ e. e ≡ AirError.Memory) }
{
    let mut row = Vec::with_capacity(alloc, width)?;
    for i in 0..width {
        row.push(SymbolicVariableExt::new(entry, i))?;
    }
    Ok(row)
}

/// The base entries of a builder: the variables of the public values, of the periodic columns and of the preprocessed
/// rows.
#[derive(Drop)]
pub(crate) struct Entries<F> {
    pub(crate) layout: AirLayout,
    pub(crate) public_values: Vec<SymbolicVariable<F>>,
    pub(crate) periodic_columns: Vec<SymbolicVariable<F>>,
    pub(crate) preprocessed: TwoRows<SymbolicVariable<F>>,
    pub(crate) ghost public: { IsRowOf Public layout.num_public_values public_values.items },
    pub(crate) ghost periodic: { IsRowOf Periodic layout.num_periodic_columns periodic_columns.items },
    pub(crate) ghost current: { IsRowOf (Preprocessed 0) layout.preprocessed_width preprocessed.current.items },
    pub(crate) ghost next: { IsRowOf (Preprocessed 1) layout.preprocessed_width preprocessed.next.items },
}

/// The base entries of this layout.
pub(crate) fn entries_of<F: Field>(alloc: Global, layout: AirLayout) -> Result<Entries<F>, AirError>
    ensures layout { IfOk result (λ entries. entries.layout ≡ layout) }
    ensures refused { IfErr result (λ e. e ≡ AirError.Memory) }
{
    let width = layout.preprocessed_width;
    let current = variables_of(alloc, BaseEntry::Preprocessed { offset: 0 }, width)?;
    let next = variables_of(alloc, BaseEntry::Preprocessed { offset: 1 }, width)?;
    let public_values = variables_of(alloc, BaseEntry::Public, layout.num_public_values)?;
    let periodic_columns = variables_of(alloc, BaseEntry::Periodic, layout.num_periodic_columns)?;
    Ok(Entries {
        layout,
        public_values,
        periodic_columns,
        preprocessed: TwoRows::new(current, next),
    })
}

/// The extension entries of a builder: the variables of the challenges and of the permutation values.
#[derive(Drop)]
pub(crate) struct ExtEntries<F, EF> {
    pub(crate) layout: AirLayout,
    pub(crate) challenges: Vec<SymbolicVariableExt<F, EF>>,
    pub(crate) permutation_values: Vec<SymbolicVariableExt<F, EF>>,
    pub(crate) ghost random: { IsExtRowOf Challenge layout.num_permutation_challenges challenges.items },
    pub(crate) ghost exposed: { IsExtRowOf PermutationValue layout.num_permutation_values permutation_values.items },
}

/// The extension entries of this layout.
pub(crate) fn ext_entries_of<F: Field, EF: ExtensionField<F>>(
    alloc: Global,
    layout: AirLayout,
) -> Result<ExtEntries<F, EF>, AirError>
    ensures layout { IfOk result (λ entries. entries.layout ≡ layout) }
    ensures refused { IfErr result (λ e. e ≡ AirError.Memory) }
{
    let challenges = ext_variables_of(
        alloc,
        ExtEntry::Challenge,
        layout.num_permutation_challenges,
    )?;
    let permutation_values = ext_variables_of(
        alloc,
        ExtEntry::PermutationValue,
        layout.num_permutation_values,
    )?;
    Ok(ExtEntries {
        layout,
        challenges,
        permutation_values,
    })
}

/// All entries of a builder, of one layout.
#[derive(Drop)]
pub(crate) struct AllEntries<F, EF> {
    pub(crate) base: Entries<F>,
    pub(crate) ext: ExtEntries<F, EF>,
    pub(crate) ghost one_layout: { ext.layout ≡ base.layout },
}

/// All entries of this layout.
pub(crate) fn all_entries_of<F: Field, EF: ExtensionField<F>>(
    alloc: Global,
    layout: AirLayout,
) -> Result<AllEntries<F, EF>, AirError>
    ensures layout { IfOk result (λ entries. entries.base.layout ≡ layout) }
    ensures refused { IfErr result (λ e. e ≡ AirError.Memory) }
{
    let base = entries_of(alloc, layout)?;
    let ext = ext_entries_of(alloc, layout)?;
    Ok(AllEntries { base, ext })
}
