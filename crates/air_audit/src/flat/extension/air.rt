//! The AIR that expressions of a pool over an extension, and of its base pool, are.
ghost use Rattle.std.specs.Prelude.{◌≡◌, ◌⊎◌, [], All, IfOk, IfErr};
ghost use Rattle.air_symbolic.specs.ExtLeaves.{ext_reads};
ghost use Rattle.air_symbolic.specs.Pools.{FitsBase};
ghost use Rattle.air_core.specs.declared.errors.AirError.{AirError};
ghost use Rattle.air_builder.specs.Declaration.{declaration_of};
ghost use Rattle.air_audit.specs.RootLabels.{root_label};
ghost use Rattle.air_audit.specs.ExtPlans.{IsExtPlan, ReachesFarRow};
ghost use Rattle.air_audit.specs.FlatExtAirs.{RootHere, ExtRootsIn, zero_at_ext_roots};
ghost use Rattle.air_audit.specs.laws.ExtPlans.{IsExtPlan-prop};
ghost use Rattle.air_audit.specs.laws.FlatExtAirs.{ExtRootsIn-prop};

use crate::flat::extension::plan::{ExtPlan, ext_plan_of};
use crate::flat::labels::label_at;
use crate::flat::root::Root;
use air_builder::{AirError, BaseAir, Beside, BoundaryPublic};
use air_field::{ExtensionField, Field, RowMajorMatrix};
use air_symbolic::{ExprPool, ExtLeaf};

/// An AIR from outside with constraints over an extension: its constraints are expressions of a pool over the
/// extension, and of the base pool under it.
#[derive(Drop)]
pub struct FlatExtAir<F: Field, EF: ExtensionField<F>> {
    /// The expressions over the extension, and under them those of the base pool.
    pub pool: ExprPool<ExtLeaf<F, EF>>,
    /// The expressions that are zero on every row, in order.
    pub roots: Vec<Root<F, EF>>,
    /// What it has beside these constraints.
    pub beside: Beside<F>,
    /// The roots' labels, in order. A root past their end has none, nor has one whose label is empty.
    pub labels: Vec<String>,
    /// How the roots' expressions are made at each row.
    pub(crate) plan: ExtPlan<F, EF>,
    /// The pool is one, and the roots are in it and in its base pool.
    pub ghost roots_in: { ExtRootsIn EF.basis pool roots.items } by { ExtRootsIn-prop EF.basis pool
        roots.items },
    /// The plan is that of the roots.
    pub(crate) ghost planned: { IsExtPlan EF.basis pool roots.items plan.base.numbers.items
        plan.base.steps.items plan.base.places.items plan.base_table.items
        plan.numbers.items plan.table.items } by { IsExtPlan-prop EF.basis pool roots.items
            plan.base.numbers.items plan.base.steps.items plan.base.places.items
            plan.base_table.items plan.numbers.items plan.table.items },
}

impl<F: Field, EF: ExtensionField<F>> FlatExtAir<F, EF> {
    /// The AIR that asserts the roots in order: a base root as a base constraint, another over the extension. Both kinds
    /// share one counter. Each root must be a number of its pool. The nodes that the roots reach are looked up here,
    /// once, and no longer at a row.
    ///
    /// # Errors
    ///
    /// `RowOffset` if they reach a column of the permutation trace in a row other than this one and the next; `Memory`.
    pub fn new(
        pool: ExprPool<ExtLeaf<F, EF>>,
        roots: Vec<Root<F, EF>>,
        beside: Beside<F>,
    ) -> Result<Self, AirError>
        requires owed { FitsBase (ext_reads EF.basis) pool }
        requires here { All (RootHere pool) roots.items }
        ensures pool { IfOk result (λ a. a.pool ≡ pool) }
        ensures roots { IfOk result (λ a. a.roots ≡ roots) }
        ensures beside { IfOk result (λ a. a.beside ≡ beside) }
        ensures labels { IfOk result (λ a. a.labels.items ≡ []) }
        ensures refused { IfErr result (λ e. (e ≡ AirError.Memory) ⊎
            ReachesFarRow EF.basis pool roots.items e) }
    {
        pool.nodes_fit();
        let alloc = *roots.allocator();
        let plan = ext_plan_of(alloc, &pool, &roots)?;
        Ok(FlatExtAir {
            pool,
            roots,
            beside,
            labels: Vec::new(alloc),
            plan,
        })
    }

    /// The same AIR with these labels of its roots, in order, as [`FlatAir::with_labels`](crate::FlatAir::with_labels).
    pub fn with_labels(mut self, labels: Vec<String>) -> Self
        ensures pool { result.pool ≡ self.pool }
        ensures roots { result.roots ≡ self.roots }
        ensures beside { result.beside ≡ self.beside }
        ensures labels { result.labels ≡ labels }
    {
        self.labels = labels;
        self
    }

    /// The label of a root; it is empty where the root has none.
    pub fn label(&self, root: usize) -> &str
        ensures { result.now ≡ root_label self.now.labels.items root }
    {
        label_at(&self.labels, root)
    }
}

impl<F: Field, EF: ExtensionField<F>> BaseAir<F> for FlatExtAir<F, EF> {
    ghost declaration = { λ a.
        declaration_of (zero_at_ext_roots EF.basis a.pool a.roots.items) a.beside };

    fn width(&self) -> usize {
        self.beside.width
    }

    fn num_public_values(&self) -> usize {
        self.beside.num_public_values
    }

    fn preprocessed_trace(&self) -> Option<&RowMajorMatrix<F>> {
        self.beside.preprocessed.as_ref()
    }

    fn periodic_columns(&self) -> &[Vec<F>] {
        &self.beside.periodic
    }

    fn public_boundary_io(&self) -> &[BoundaryPublic] {
        &self.beside.cells
    }
}
