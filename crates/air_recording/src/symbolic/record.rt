//! The constraints of an AIR, recorded as expressions.
ghost use Rattle.std.specs.Prelude.{◌≡◌, ◌<◌, [], map, All, IfOk, IfErr, OnOk};
ghost use Rattle.air_symbolic.specs.BaseLeaves.{base_reads};
ghost use Rattle.air_symbolic.specs.ExtLeaves.{ext_reads};
ghost use Rattle.air_symbolic.specs.Pools.{FitsBase, size};
ghost use Rattle.air_recording.specs.Layouts.{LayoutSuits};
ghost use Rattle.air_recording.specs.Folds.{ArePlacesOf};
ghost use Rattle.air_recording.specs.Kinds.{kind_of, RecordsKinds};
ghost use Rattle.air_recording.specs.Recorded.{RecordsBase, RecordsExt, RecordRefuses, RecordingAnswers};
ghost use Rattle.air_recording.specs.RecordedLists.{pool_of, recorded_by};

use crate::layouts::air_layout::AirLayout;
use crate::layouts::constraint_layout::ConstraintLayout;
use crate::symbolic::builder::SymbolicAirBuilder;
use crate::symbolic::constraints::Constraints;
use air_builder::{Air, AirError};
use air_field::{ExtensionField, Field, SelfExtension};
use air_symbolic::{BaseLeaf, ExprId, ExprPool, ExtLeaf};
use std::alloc::Global;
use std::marker::Model;

/// The recorded constraints of each kind, in the order of their assertion: the base ones are numbers of the pool's base
/// pool, the extension ones of the pool.
#[derive(Drop)]
pub struct Recorded<F: Field, EF: ExtensionField<F>> {
    pub pool: ExprPool<ExtLeaf<F, EF>>,
    pub base: Vec<ExprId<BaseLeaf<F>>>,
    pub ext: Vec<ExprId<ExtLeaf<F, EF>>>,
}

impl<F: Field, EF: ExtensionField<F>> Model for Recorded<F, EF> {
    ghost use Rattle.air_recording.specs.Recordings.{Recording};

    ghost Value = { Recording F EF };

    ghost use Rattle.air_symbolic.specs.ExtLeaves.{ext_reads};
    ghost use Rattle.air_symbolic.specs.Pools.{IsPool};

    ghost view = { λ r. record { pool = r.pool; base = r.base.items; ext = r.ext.items } };

    // The pool and its base pool are as their calls left them.
    ghost invariant = { λ r. IsPool (ext_reads EF.basis) r.pool };
}

impl<F: Field, EF: ExtensionField<F>> SymbolicAirBuilder<F, EF> {
    /// The recorded constraints.
    pub fn into_recorded(self) -> Recorded<F, EF>
        requires { FitsBase (ext_reads EF.basis) (pool_of self) }
        ensures pool { result.pool ≡ pool_of self }
        ensures base { result.base ≡ (recorded_by self).base }
        ensures ext { result.ext ≡ (recorded_by self).ext }
    {
        let SymbolicAirBuilder {
            pool,
            constraints,
            ..
        } = self;
        let Constraints { base, ext, .. } = constraints;
        pool.nodes_fit();
        Recorded { pool, base, ext }
    }
}

/// Evaluates an AIR on a symbolic builder with this layout, which is first compared with the AIR. It fails as
/// [`get_all_symbolic_constraints`] does.
fn record<F: Field, EF: ExtensionField<F>, A: Air<SymbolicAirBuilder<F, EF>>>(
    alloc: Global,
    air: &A,
    layout: AirLayout,
) -> Result<SymbolicAirBuilder<F, EF>, AirError>
    ensures base { IfOk result (λ b. RecordsBase F.ring EF.over base_reads b.pool.base
        b.constraints.base.items (A.declaration air.now).constraints) }
    ensures ext { IfOk result (λ b. RecordsExt F.ring EF.over
        (ext_reads EF.basis) b.pool b.constraints.ext.items
        (A.declaration air.now).constraints) }
    ensures base_here { IfOk result (λ b. All (λ i. i < size b.pool.base)
        b.constraints.base.items) }
    ensures ext_here { IfOk result (λ b. All (λ i. i < size b.pool) b.constraints.ext.items) }
    ensures kinds { IfOk result (λ b. RecordsKinds b.constraints.kinds.items
        (A.declaration air.now).constraints) }
    ensures layout { OnOk result (LayoutSuits layout (A.declaration air.now)) }
    ensures answers { OnOk result (RecordingAnswers F.ring EF.over layout (A.declaration air.now)) }
    ensures refused { IfErr result (RecordRefuses layout (A.declaration air.now)) }
{
    layout.validate_against_air(air)?;
    let mut builder = SymbolicAirBuilder::new(alloc, layout)?;
    air.eval(&mut builder)?;
    Ok(builder)
}

/// Records the constraints of an AIR: for each declared constraint, in order, one expression of its kind that means the
/// declared term. So the expression has the term's polynomial, and no greater degree by any weights of the leaves.
///
/// It fails first if the layout's main width, public values or periodic columns differ from the AIR's; the error names
/// the first of these that differs. Then it fails with an error that names a missing entry, with `DegreeOverflow` if a
/// cached degree exceeds `usize`, or with `Memory`.
pub fn get_all_symbolic_constraints<
    F: Field,
    EF: ExtensionField<F>,
    A: Air<SymbolicAirBuilder<F, EF>>,
>(alloc: Global, air: &A, layout: AirLayout) -> Result<Recorded<F, EF>, AirError>
    ensures base { IfOk result (λ r. RecordsBase F.ring EF.over
        base_reads r.pool.base r.base (A.declaration air.now).constraints) }
    ensures ext { IfOk result (λ r. RecordsExt F.ring EF.over
        (ext_reads EF.basis) r.pool r.ext
        (A.declaration air.now).constraints) }
    ensures layout { OnOk result (LayoutSuits layout (A.declaration air.now)) }
    ensures answers { OnOk result (RecordingAnswers F.ring EF.over layout (A.declaration air.now)) }
    ensures refused { IfErr result (RecordRefuses layout (A.declaration air.now)) }
{
    let builder = record(alloc, air, layout)?;
    Ok(builder.into_recorded())
}

/// Records as [`get_all_symbolic_constraints`] does, and answers also the constraint indices of each kind.
pub fn record_with_layout<F: Field, EF: ExtensionField<F>, A: Air<SymbolicAirBuilder<F, EF>>>(
    alloc: Global,
    air: &A,
    layout: AirLayout,
) -> Result<(Recorded<F, EF>, ConstraintLayout), AirError>
    ensures base { IfOk result (λ r. RecordsBase F.ring EF.over base_reads r.0.pool.base
        r.0.base (A.declaration air.now).constraints) }
    ensures ext { IfOk result (λ r. RecordsExt F.ring EF.over
        (ext_reads EF.basis) r.0.pool r.0.ext
        (A.declaration air.now).constraints) }
    ensures base_here { IfOk result (λ r. All (λ i. i < size r.0.pool.base) r.0.base) }
    ensures ext_here { IfOk result (λ r. All (λ i. i < size r.0.pool) r.0.ext) }
    ensures places { IfOk result (λ r. ArePlacesOf (map kind_of (A.declaration air.now).constraints)
        r.1.base_indices.items r.1.ext_indices.items) }
    ensures layout { OnOk result (LayoutSuits layout (A.declaration air.now)) }
    ensures answers { OnOk result (RecordingAnswers F.ring EF.over layout (A.declaration air.now)) }
    ensures refused { IfErr result (RecordRefuses layout (A.declaration air.now)) }
{
    let builder = record(alloc, air, layout)?;
    let places = builder.constraint_layout()?;
    Ok((builder.into_recorded(), places))
}

/// Records the base constraints of an AIR, as [`get_all_symbolic_constraints`] does; `ext` is left empty. The pool is
/// still one over the extension.
pub fn get_symbolic_constraints<F: SelfExtension, A: Air<SymbolicAirBuilder<F, F>>>(
    alloc: Global,
    air: &A,
    layout: AirLayout,
) -> Result<Recorded<F, F>, AirError>
    ensures base { IfOk result (λ r. RecordsBase F.ring F.over
        base_reads r.pool.base r.base (A.declaration air.now).constraints) }
    ensures ext { IfOk result (λ r. r.ext ≡ []) }
    ensures layout { OnOk result (LayoutSuits layout (A.declaration air.now)) }
    ensures answers { OnOk result (RecordingAnswers F.ring F.over layout (A.declaration air.now)) }
    ensures refused { IfErr result (RecordRefuses layout (A.declaration air.now)) }
{
    let Recorded { pool, base, .. } = get_all_symbolic_constraints(alloc, air, layout)?;
    let ext = Vec::new(alloc);
    Ok(Recorded { pool, base, ext })
}

/// Records the extension constraints of an AIR, as [`get_all_symbolic_constraints`] does; `base` is left empty.
pub fn get_symbolic_constraints_extension<
    F: Field,
    EF: ExtensionField<F>,
    A: Air<SymbolicAirBuilder<F, EF>>,
>(alloc: Global, air: &A, layout: AirLayout) -> Result<Recorded<F, EF>, AirError>
    ensures base { IfOk result (λ r. r.base ≡ []) }
    ensures ext { IfOk result (λ r. RecordsExt F.ring EF.over
        (ext_reads EF.basis) r.pool r.ext
        (A.declaration air.now).constraints) }
    ensures layout { OnOk result (LayoutSuits layout (A.declaration air.now)) }
    ensures answers { OnOk result (RecordingAnswers F.ring EF.over layout (A.declaration air.now)) }
    ensures refused { IfErr result (RecordRefuses layout (A.declaration air.now)) }
{
    let Recorded { pool, ext, .. } = get_all_symbolic_constraints(alloc, air, layout)?;
    let base = Vec::new(alloc);
    Ok(Recorded { pool, base, ext })
}

/// The constraint indices of the base and of the extension constraints of an AIR. It fails as
/// [`get_all_symbolic_constraints`] does.
pub fn get_constraint_layout<F: Field, EF: ExtensionField<F>, A: Air<SymbolicAirBuilder<F, EF>>>(
    alloc: Global,
    air: &A,
    layout: AirLayout,
) -> Result<ConstraintLayout, AirError>
    ensures places { IfOk result (λ l. ArePlacesOf (map kind_of (A.declaration air.now).constraints)
        l.base_indices.items l.ext_indices.items) }
    ensures layout { OnOk result (LayoutSuits layout (A.declaration air.now)) }
    ensures answers { OnOk result (RecordingAnswers F.ring EF.over layout (A.declaration air.now)) }
    ensures refused { IfErr result (RecordRefuses layout (A.declaration air.now)) }
{
    let builder: SymbolicAirBuilder<F, EF> = record(alloc, air, layout)?;
    builder.constraint_layout()
}
