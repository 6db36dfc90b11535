//! The AIR that expressions of a pool are.
ghost use Rattle.std.specs.Prelude.{◌≡◌, ◌<◌, [], All, IfOk, IfErr};
ghost use Rattle.air_symbolic.specs.BaseLeaves.{base_leaves};
ghost use Rattle.air_symbolic.specs.Pools.{size};
ghost use Rattle.air_builder.specs.Declaration.{declaration_of};
ghost use Rattle.air_core.specs.declared.errors.AirError.{AirError};
ghost use Rattle.air_builder.specs.Labels.{LabelledBy};
ghost use Rattle.air_audit.specs.FlatAirs.{RootsIn, zero_at_roots};
ghost use Rattle.air_audit.specs.RootLabels.{root_label, RootSays};
ghost use Rattle.air_audit.specs.Plans.{IsPlan};
ghost use Rattle.air_audit.specs.laws.FlatAirs.{RootsIn-prop};
ghost use Rattle.air_audit.specs.laws.Plans.{IsPlan-prop};

use crate::flat::labels::label_at;
use crate::flat::plan::{Plan, plan_of};
use crate::flat::table::{assert_places, make_places};
use air_builder::{Air, AirError, BaseAir, Beside, BoundaryPublic, NamedAirBuilder};
use air_field::{Field, RowMajorMatrix};
use air_symbolic::{BaseLeaf, ExprId, ExprPool};

/// An AIR from outside: its constraints are expressions of a pool.
#[derive(Drop)]
pub struct FlatAir<F: Field> {
    /// The expressions.
    pub pool: ExprPool<BaseLeaf<F>>,
    /// The expressions that are zero on every row, in order.
    pub roots: Vec<ExprId<BaseLeaf<F>>>,
    /// What it has beside these constraints.
    pub beside: Beside<F>,
    /// The roots' labels, in order. A root past their end has none, nor has one whose label is empty.
    pub labels: Vec<String>,
    /// How the roots' expressions are made at each row.
    plan: Plan<F>,
    /// The pool is one, and the roots are in it.
    pub ghost roots_in: { RootsIn pool roots.items } by { RootsIn-prop pool roots.items },
    /// The plan is that of the roots.
    ghost planned: { IsPlan base_leaves pool.nodes roots.items plan.numbers.items
        plan.steps.items plan.places.items } by { IsPlan-prop base_leaves pool.nodes
            roots.items plan.numbers.items plan.steps.items plan.places.items },
}

impl<F: Field> FlatAir<F> {
    /// The AIR that asserts the roots in order. Each root must be a number of the pool. The nodes that the roots reach are
    /// looked up here, once, and no longer at a row. A preprocessed trace's height isn't compared with anything here: an
    /// audit or a check refuses one of another height than the trace (`PreprocessedHeight`).
    pub fn new(
        pool: ExprPool<BaseLeaf<F>>,
        roots: Vec<ExprId<BaseLeaf<F>>>,
        beside: Beside<F>,
    ) -> Result<Self, AirError>
        requires here { All (λ i. i < size pool) roots.items }
        ensures pool { IfOk result (λ a. a.pool ≡ pool) }
        ensures roots { IfOk result (λ a. a.roots ≡ roots) }
        ensures beside { IfOk result (λ a. a.beside ≡ beside) }
        ensures labels { IfOk result (λ a. a.labels.items ≡ []) }
        ensures refused { IfErr result (λ e. e ≡ AirError.Memory) }
    {
        pool.nodes_fit();
        let alloc = *roots.allocator();
        let plan = plan_of(alloc, &pool, &roots)?;
        Ok(FlatAir {
            pool,
            roots,
            beside,
            labels: Vec::new(alloc),
            plan,
        })
    }

    /// The same AIR with these labels of its roots, in order. They change no constraint: a failure of a root is reported
    /// under its label. It takes no memory.
    pub fn with_labels(mut self, labels: Vec<String>) -> Self
        ensures pool { result.pool ≡ self.pool }
        ensures roots { result.roots ≡ self.roots }
        ensures beside { result.beside ≡ self.beside }
        ensures labels { result.labels ≡ labels }
    {
        self.labels = labels;
        self
    }

    /// The label of a root; it is empty where the root has none.
    pub fn label(&self, root: usize) -> &str
        ensures { result.now ≡ root_label self.now.labels.items root }
    {
        label_at(&self.labels, root)
    }
}

impl<F: Field> BaseAir<F> for FlatAir<F> {
    ghost declaration = { λ a. declaration_of (zero_at_roots a.pool a.roots.items) a.beside };

    fn width(&self) -> usize {
        self.beside.width
    }

    fn num_public_values(&self) -> usize {
        self.beside.num_public_values
    }

    fn preprocessed_trace(&self) -> Option<&RowMajorMatrix<F>> {
        self.beside.preprocessed.as_ref()
    }

    fn periodic_columns(&self) -> &[Vec<F>] {
        &self.beside.periodic
    }

    fn public_boundary_io(&self) -> &[BoundaryPublic] {
        &self.beside.cells
    }
}

impl<AB: NamedAirBuilder> Air<AB> for FlatAir<AB::F> {
    ghost labels = { λ air a b. LabelledBy AB.labelled (RootSays air.labels.items) a b
        (zero_at_roots air.pool air.roots.items) };

    fn eval(&self, builder: &mut AB) -> Result<(), AirError> {
        if self.roots.is_empty() {
            return Ok(());
        }
        let alloc = *self.roots.allocator();
        let table = make_places(alloc, &self.pool, &self.plan, builder)?;
        assert_places(builder, &table, &self.plan.places, &self.labels)
    }
}
