//! The constraints that a symbolic builder has recorded.
ghost use Rattle.std.specs.Prelude.{◌≡◌, [], IfOk, OnOk, OnErr, IfErr};
ghost use Rattle.air_recording.specs.Folds.{ArePlacesOf};
ghost use Rattle.air_recording.specs.Kinds.{is_of, places_where};
ghost use Rattle.air_recording.specs.Recording.{with_base, with_ext};
ghost use Rattle.air_recording.specs.RecordedLists.{lists_of};

use crate::layouts::constraint_layout::ConstraintLayout;
use crate::symbolic::kind::ConstraintKind;
use air_builder::AirError;
use air_field::{ExtensionField, Field};
use air_symbolic::{BaseLeaf, ExprId, ExtLeaf};
use std::alloc::Global;

// The initial capacity for base constraints: enough for a small AIR.
const FIRST_CONSTRAINTS: usize = 16;

/// The recorded expressions of each kind, in order, and the kind of each constraint.
#[derive(Drop)]
pub(crate) struct Constraints<F: Field, EF: ExtensionField<F>> {
    pub(crate) base: Vec<ExprId<BaseLeaf<F>>>,
    pub(crate) ext: Vec<ExprId<ExtLeaf<F, EF>>>,
    pub(crate) kinds: Vec<ConstraintKind>,
}

impl<F: Field, EF: ExtensionField<F>> Constraints<F, EF> {
    /// Nothing recorded.
    pub(crate) fn new(alloc: Global) -> Self
        ensures base { result.base.items ≡ [] }
        ensures ext { result.ext.items ≡ [] }
        ensures kinds { result.kinds.items ≡ [] }
    {
        Constraints {
            base: Vec::new(alloc),
            ext: Vec::new(alloc),
            kinds: Vec::new(alloc),
        }
    }

    /// Records a base expression as the next constraint.
    pub(crate) fn push_base(&mut self, x: ExprId<BaseLeaf<F>>) -> Result<(), AirError>
        ensures ok { OnOk result (lists_of self.new ≡ with_base (lists_of self.old) x) }
        ensures err { OnErr result (lists_of self.new ≡ lists_of self.old) }
        ensures refused { IfErr result (λ e. e ≡ AirError.Memory) }
    {
        self.kinds.reserve(1)?;
        if self.base.is_empty() {
            self.base.reserve(FIRST_CONSTRAINTS)?;
        }
        self.base.push(x)?;
        self.kinds.push_reserved(ConstraintKind::Base);
        Ok(())
    }

    /// Records an extension expression as the next constraint.
    pub(crate) fn push_ext(&mut self, x: ExprId<ExtLeaf<F, EF>>) -> Result<(), AirError>
        ensures ok { OnOk result (lists_of self.new ≡ with_ext (lists_of self.old) x) }
        ensures err { OnErr result (lists_of self.new ≡ lists_of self.old) }
        ensures refused { IfErr result (λ e. e ≡ AirError.Memory) }
    {
        self.kinds.reserve(1)?;
        self.ext.push(x)?;
        self.kinds.push_reserved(ConstraintKind::Extension);
        Ok(())
    }

    /// The constraint indices of each kind.
    pub(crate) fn layout(&self, alloc: Global) -> Result<ConstraintLayout, AirError>
        ensures places { IfOk result (λ l. ArePlacesOf self.now.kinds.items l.base_indices.items
            l.ext_indices.items) }
        ensures refused { IfErr result (λ e. e ≡ AirError.Memory) }
    {
        let base_indices = places_of(alloc, &self.kinds, ConstraintKind::Base)?;
        let ext_indices = places_of(alloc, &self.kinds, ConstraintKind::Extension)?;
        Ok(ConstraintLayout {
            base_indices,
            ext_indices,
        })
    }
}

/// The constraint indices of one kind.
fn places_of(
    alloc: Global,
    kinds: &[ConstraintKind],
    kind: ConstraintKind,
) -> Result<Vec<usize>, AirError>
    ensures places { IfOk result (λ places. places.items ≡ places_where (is_of kind) kinds.now) }
    ensures refused { IfErr result (λ e. e ≡ AirError.Memory) }
{
    let mut places = Vec::new(alloc);
    for (place, other) in kinds.iter().enumerate() {
        if *other == kind {
            places.push(place)?;
        }
    }
    Ok(places)
}
