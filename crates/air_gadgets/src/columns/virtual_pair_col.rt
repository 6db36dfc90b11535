//! Virtual columns: weighted sums of columns.
ghost use Rattle.std.specs.Prelude.{◌≡◌, ◌↔◌, IsTrue, IfOk, IfErr, [], All, length, map};
ghost use Rattle.air_field.specs.Algebra.{MadeOf, RefusedOf, scaled_term};
ghost use Rattle.air_gadgets.specs.declared.columns.pair_col.PairCol.TheVariants.{Preprocessed, Main};
ghost use Rattle.air_gadgets.specs.Columns.{FitsWithin, combination, on_preprocessed, on_main, single_of, sum_of, difference_of};
ghost use Rattle.air_core.specs.declared.errors.AirError.{AirError};
ghost use Rattle.air_gadgets.specs.Columns.{MadeOfColumns, RefusedOfColumns};
ghost use Rattle.air_gadgets.specs.Errors.{AsAir};

use crate::columns::pair_col::PairCol;
use air_builder::AirError;
use air_field::{Algebra, Field, RingError};
use std::alloc::{AllocError, Global};
use std::marker::Model;

/// A constant and columns with their weights: a column that is in no trace, such as the key of a lookup or the packed
/// input of a gadget.
#[derive(Debug, Drop)]
pub struct VirtualPairCol<F> {
    column_weights: Vec<(PairCol, F)>,
    constant: F,
}

impl<F> Model for VirtualPairCol<F> {
    ghost use Rattle.air_gadgets.specs.Columns.{Combination};

    ghost Value = { Combination F };

    ghost view = { λ v. record { weights = v.column_weights.items; constant = v.constant } };
}

/// x times the constant `weight`
fn times_weight<F: Field, R: Algebra<F>>(
    ring: &mut R,
    x: R::Elem,
    weight: F,
) -> Result<R::Elem, RingError>
    requires { R.has ring.old x }
    ensures extended { R.extends ring.old ring.new }
    ensures made { IfOk result (MadeOf R.has R.means (scaled_term weight) ring.old ring.new x) }
    ensures refused { IfErr result (RefusedOf R.means R.refuses (scaled_term weight) ring.old x) }
{
    let scale = ring.constant(weight)?;
    ring.mul(x, scale)
}

/// Preprocessed columns with their weights.
fn preprocessed_columns<F: Field>(
    alloc: Global,
    column_weights: &[(usize, F)],
) -> Result<Vec<(PairCol, F)>, AllocError>
    ensures { IfOk result (λ v. v.items ≡ map (λ w. (Preprocessed w.0, w.1)) column_weights.now) }
{
    column_weights
        .iter()
        .map(|(column, weight)| (PairCol::Preprocessed(*column), *weight))
        .collect(alloc)
}

/// Main columns with their weights.
fn main_columns<F: Field>(
    alloc: Global,
    column_weights: &[(usize, F)],
) -> Result<Vec<(PairCol, F)>, AllocError>
    ensures { IfOk result (λ v. v.items ≡ map (λ w. (Main w.0, w.1)) column_weights.now) }
{
    column_weights
        .iter()
        .map(|(column, weight)| (PairCol::Main(*column), *weight))
        .collect(alloc)
}

/// Each column with the weight 1.
fn each_once<F: Field>(alloc: Global, columns: &[usize]) -> Result<Vec<(usize, F)>, AllocError>
    ensures { IfOk result (λ v. v.items ≡ map (λ i. (i, F.ONE)) columns.now) }
{
    columns
        .iter()
        .map(|column| (*column, F::ONE))
        .collect(alloc)
}

impl<F: Field> VirtualPairCol<F> {
    /// The constant plus each weight times its column.
    pub fn new(column_weights: Vec<(PairCol, F)>, constant: F) -> Self
        ensures { result ≡ combination column_weights.items constant }
    {
        VirtualPairCol {
            column_weights,
            constant,
        }
    }

    /// The constant plus each weight times its preprocessed column.
    pub fn new_preprocessed(
        alloc: Global,
        column_weights: Vec<(usize, F)>,
        constant: F,
    ) -> Result<Self, AirError>
        ensures made { IfOk result (λ v. v ≡ on_preprocessed column_weights.items constant) }
        ensures refused { IfErr result (λ e. e ≡ AirError.Memory) }
    {
        let columns = preprocessed_columns(alloc, &column_weights)?;
        Ok(Self::new(columns, constant))
    }

    /// The constant plus each weight times its main column.
    pub fn new_main(
        alloc: Global,
        column_weights: Vec<(usize, F)>,
        constant: F,
    ) -> Result<Self, AirError>
        ensures made { IfOk result (λ v. v ≡ on_main column_weights.items constant) }
        ensures refused { IfErr result (λ e. e ≡ AirError.Memory) }
    {
        let columns = main_columns(alloc, &column_weights)?;
        Ok(Self::new(columns, constant))
    }

    /// The constant column 1.
    pub fn one(alloc: Global) -> Self
        ensures { result ≡ combination [] F.ONE }
    {
        Self::constant(alloc, F::ONE)
    }

    /// The constant column `x`.
    pub fn constant(alloc: Global, x: F) -> Self
        ensures { result ≡ combination [] x }
    {
        Self::new(Vec::new(alloc), x)
    }

    /// The column itself.
    pub fn single(alloc: Global, column: PairCol) -> Result<Self, AirError>
        ensures made { IfOk result (λ v. v ≡ single_of F.ONE F.ZERO column) }
        ensures refused { IfErr result (λ e. e ≡ AirError.Memory) }
    {
        let mut column_weights = Vec::new(alloc);
        column_weights.push((column, F::ONE))?;
        Ok(Self::new(column_weights, F::ZERO))
    }

    /// A preprocessed column itself.
    pub fn single_preprocessed(alloc: Global, column: usize) -> Result<Self, AirError>
        ensures made { IfOk result (λ v. v ≡ single_of F.ONE F.ZERO (Preprocessed column)) }
        ensures refused { IfErr result (λ e. e ≡ AirError.Memory) }
    {
        Self::single(alloc, PairCol::Preprocessed(column))
    }

    /// A main column itself.
    pub fn single_main(alloc: Global, column: usize) -> Result<Self, AirError>
        ensures made { IfOk result (λ v. v ≡ single_of F.ONE F.ZERO (Main column)) }
        ensures refused { IfErr result (λ e. e ≡ AirError.Memory) }
    {
        Self::single(alloc, PairCol::Main(column))
    }

    /// The sum of preprocessed columns.
    pub fn sum_preprocessed(alloc: Global, columns: Vec<usize>) -> Result<Self, AirError>
        ensures made { IfOk result (λ v. v ≡ sum_of F.ONE F.ZERO Preprocessed columns.items) }
        ensures refused { IfErr result (λ e. e ≡ AirError.Memory) }
    {
        let column_weights = each_once(alloc, &columns)?;
        Self::new_preprocessed(alloc, column_weights, F::ZERO)
    }

    /// The sum of main columns.
    pub fn sum_main(alloc: Global, columns: Vec<usize>) -> Result<Self, AirError>
        ensures made { IfOk result (λ v. v ≡ sum_of F.ONE F.ZERO Main columns.items) }
        ensures refused { IfErr result (λ e. e ≡ AirError.Memory) }
    {
        let column_weights = each_once(alloc, &columns)?;
        Self::new_main(alloc, column_weights, F::ZERO)
    }

    // One column minus another.
    fn diff(alloc: Global, a: PairCol, b: PairCol) -> Result<Self, AirError>
        ensures made { IfOk result (λ v. v ≡ difference_of F.ONE F.NEG_ONE F.ZERO a b) }
        ensures refused { IfErr result (λ e. e ≡ AirError.Memory) }
    {
        let mut column_weights = Vec::new(alloc);
        column_weights.push((a, F::ONE))?;
        column_weights.push((b, F::NEG_ONE))?;
        Ok(Self::new(column_weights, F::ZERO))
    }

    /// One preprocessed column minus another.
    pub fn diff_preprocessed(alloc: Global, a_col: usize, b_col: usize) -> Result<Self, AirError>
        ensures made { IfOk result
            (λ v. v ≡ difference_of F.ONE F.NEG_ONE F.ZERO (Preprocessed a_col) (Preprocessed b_col)) }
        ensures refused { IfErr result (λ e. e ≡ AirError.Memory) }
    {
        Self::diff(
            alloc,
            PairCol::Preprocessed(a_col),
            PairCol::Preprocessed(b_col),
        )
    }

    /// One main column minus another.
    pub fn diff_main(alloc: Global, a_col: usize, b_col: usize) -> Result<Self, AirError>
        ensures made { IfOk result (λ v. v ≡ difference_of F.ONE F.NEG_ONE F.ZERO (Main a_col)
            (Main b_col)) }
        ensures refused { IfErr result (λ e. e ≡ AirError.Memory) }
    {
        Self::diff(alloc, PairCol::Main(a_col), PairCol::Main(b_col))
    }

    /// Whether each column that it names is below the width of its trace.
    pub fn fits(&self, preprocessed_width: usize, main_width: usize) -> bool
        ensures { IsTrue result ↔ FitsWithin preprocessed_width main_width self.now }
    {
        for (column, _) in &self.column_weights {
            if !column.in_range(preprocessed_width, main_width) {
                return false;
            }
        }
        true
    }

    /// The constant plus the sum of weight times entry, with the entries of these two rows. Each column must be below
    /// its row's length ([`fits`](VirtualPairCol::fits)).
    pub fn apply<R: Algebra<F>>(
        &self,
        ring: &mut R,
        preprocessed: &[R::Elem],
        main: &[R::Elem],
    ) -> Result<R::Elem, AirError>
        requires fits { FitsWithin (length preprocessed.now) (length main.now) self.now }
        requires valid { R.valid ring.old }
        requires preprocessed_in { All (R.has ring.old) preprocessed.now }
        requires main_in { All (R.has ring.old) main.now }
        ensures extended { R.extends ring.old ring.new }
        ensures made { IfOk result
            (MadeOfColumns R.has R.means ring.old ring.new self.now preprocessed.now main.now) }
        ensures refused { IfErr result
            (RefusedOfColumns R.means (AsAir R.refuses) ring.old self.now preprocessed.now main.now) }
    {
        let mut total = ring.constant(self.constant)?;
        for (column, weight) in &self.column_weights {
            let entry = column.get(preprocessed, main);
            let scaled = times_weight(ring, entry, *weight)?;
            total = ring.add(total, scaled)?;
        }
        Ok(total)
    }

    /// An equal virtual column.
    pub fn clone(&self) -> Result<Self, AllocError>
        ensures { IfOk result (λ copy. copy ≡ self.now) }
    {
        let alloc = *self.column_weights.allocator();
        let column_weights = Vec::from_slice(alloc, &self.column_weights)?;
        Ok(Self::new(column_weights, self.constant))
    }
}
