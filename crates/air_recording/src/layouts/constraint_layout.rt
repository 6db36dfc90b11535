//! The order of the constraints, and their weights in a fold.
ghost use Rattle.std.specs.Prelude.{◌≡◌, ◌-◌, ◌<◌, length, map, slice_index_or, All, IfOk, IfErr, OnOk};
ghost use Rattle.air_recording.specs.Layouts.{constraint_count, constraint_indices, first_past, IsWithinCount, DecompositionRefuses};
ghost use Rattle.air_recording.specs.AlphaPowers.{alpha_powers_at, coordinates_of, all_coordinates_of};
ghost use Rattle.air_recording.specs.Folds.{Recombines};

use air_builder::AirError;
use air_field::{ExtensionField, Field};
use std::alloc::{AllocError, Global};

/// The constraint indices of the base and of the extension constraints, among all constraints.
#[derive(Debug, Drop)]
pub struct ConstraintLayout {
    /// The indices of the base constraints, in order.
    pub base_indices: Vec<usize>,
    /// The indices of the extension constraints, in order.
    pub ext_indices: Vec<usize>,
}

impl ConstraintLayout {
    /// The number of constraints.
    pub fn total_constraints(&self) -> usize
        ensures { result ≡ constraint_count self.now }
    {
        self.base_indices.len() + self.ext_indices.len()
    }

    /// The first index at or past the total, base indices first.
    fn index_past(&self, total: usize) -> Option<usize>
        ensures { result ≡ first_past total (constraint_indices self.now) }
    {
        match first_past(&self.base_indices, total) {
            Some(index) => Some(index),
            None => first_past(&self.ext_indices, total),
        }
    }

    /// The weights of the constraints in Horner's fold by `alpha`: constraint i of K has the weight alpha^(K-1-i).
    ///
    /// First, for each of the `DIMENSION` basis elements, the coefficients of the base constraints' weights there, in
    /// the order of `base_indices`; then the whole weights of the extension constraints, in the order of `ext_indices`.
    /// If the indices are those of a list of constraints, each once and in order, the fold of all values in order is
    /// the sum of each coefficient times its basis element times its constraint's value, plus the sum of each whole
    /// weight times its constraint's value.
    ///
    /// `IndexPastTotal` names the first index at or past the number of constraints, base indices first. That number
    /// always fits `usize`, since the indices fit into memory.
    pub fn decompose_alpha<F: Field, EF: ExtensionField<F>>(
        &self,
        alloc: Global,
        alpha: EF,
    ) -> Result<(Vec<Vec<F>>, Vec<EF>), AirError>
        ensures coordinates { IfOk result (λ r. map (λ v. v.items) r.0.items ≡ all_coordinates_of
            F.ring EF.basis (alpha_powers_at EF.over.ring alpha (constraint_count self.now)
            self.now.base_indices.items) EF.DIMENSION) }
        ensures powers { IfOk result (λ r. r.1.items ≡ alpha_powers_at EF.over.ring alpha
            (constraint_count self.now) self.now.ext_indices.items) }
        ensures within { OnOk result (IsWithinCount self.now) }
        ensures fold { IfOk result (λ r. Recombines F.ring EF.over alpha self.now.base_indices.items
            self.now.ext_indices.items (map (λ v. v.items) r.0.items) r.1.items) }
        ensures refused { IfErr result (DecompositionRefuses self.now) }
    {
        let total = self.total_constraints();
        if let Some(index) = self.index_past(total) {
            return Err(AirError::IndexPastTotal { index, total });
        }
        let powers = alpha.powers(alloc, total)?;
        let base = powers_at(alloc, &powers, &self.base_indices)?;
        let whole = powers_at(alloc, &powers, &self.ext_indices)?;
        let coordinates = all_coordinates(alloc, &base)?;
        Ok((coordinates, whole))
    }
}

/// The first of these indices at or past the total.
fn first_past(indices: &[usize], total: usize) -> Option<usize>
    ensures { result ≡ first_past total indices.now }
{
    indices.iter().copied().find(|index| *index >= total)
}

/// The powers at these indices, counted from the last power backwards.
fn powers_at<T: Copy>(alloc: Global, powers: &[T], indices: &[usize]) -> Result<Vec<T>, AllocError>
    requires { All (λ i. i < length powers.now) indices.now }
    ensures { IfOk result (λ v. (d : T) → v.items ≡ map
        (λ i. slice_index_or powers.now (length powers.now - 1 - i) d) indices.now) }
{
    let mut picked = Vec::with_capacity(alloc, indices.len())?;
    for index in indices {
        let place = powers.len() - 1 - *index;
        picked.push(powers[place])?;
    }
    Ok(picked)
}

/// Coefficient `d` of each of these elements.
fn coordinate<F: Field, EF: ExtensionField<F>>(
    alloc: Global,
    elements: &[EF],
    d: usize,
) -> Result<Vec<F>, AllocError>
    requires { d < EF.DIMENSION }
    ensures { IfOk result (λ v. v.items ≡ coordinates_of F.ring EF.basis elements.now d) }
{
    let mut coefficients = Vec::with_capacity(alloc, elements.len())?;
    for element in elements {
        coefficients.push(element.as_basis_coefficients_slice()[d])?;
    }
    Ok(coefficients)
}

/// For each of the `DIMENSION` basis elements, the coefficients of these elements there.
fn all_coordinates<F: Field, EF: ExtensionField<F>>(
    alloc: Global,
    elements: &[EF],
) -> Result<Vec<Vec<F>>, AirError>
    ensures coordinates { IfOk result (λ v. map (λ w. w.items) v.items ≡ all_coordinates_of F.ring
        EF.basis elements.now EF.DIMENSION) }
    ensures refused { IfErr result (λ e. e ≡ AirError.Memory) }
{
    let mut all = Vec::with_capacity(alloc, EF::DIMENSION)?;
    for d in 0..EF::DIMENSION {
        all.push(coordinate(alloc, elements, d)?)?;
    }
    Ok(all)
}
