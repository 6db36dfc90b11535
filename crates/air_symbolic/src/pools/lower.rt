//! Extension expressions that are base expressions.
ghost use Rattle.std.specs.Prelude.{◌≡◌, ◌≢◌, ◌<◌, [], ◌∷◌, slice_index_or, None, IfOk, IfErr, IfNone, MatchOption, ◌↔◌, true};
ghost use Rattle.std.specs.Option.{IfSome};
ghost use Rattle.air_symbolic.specs.ExtLeaves.{ext_reads, ext_grows};
ghost use Rattle.air_symbolic.specs.ExtTrees.{HasExtOnly, lower, IsLowered, HasTermOf};
ghost use Rattle.air_symbolic.specs.Lowered.{IsMarkedExtOnly, IsLoweredIn, IsCounterpart, CanLower};
ghost use Rattle.air_symbolic.specs.Pools.{IsPool, FitsBase, Grown, HasTree, tree_at, size};
ghost use Rattle.air_symbolic.specs.Reach.{Reached};

use crate::leaves::base_leaf::BaseLeaf;
use crate::leaves::ext_leaf::ExtLeaf;
use crate::pools::expr::{ExprId, SymbolicExpr};
use crate::pools::pool::ExprPool;
use crate::pools::reach::reached_nodes;
use air_field::{ExtensionField, Field, RingError};

// What a node of an extension pool is in the base pool.
pub(crate) enum Counterpart<F> {
    // The expression that a Base leaf names.
    Number(ExprId<BaseLeaf<F>>),
    // A node, which the base pool may lack.
    Node(SymbolicExpr<BaseLeaf<F>>),
}

// The base number in the table at a number.
fn lowered_at<F: Field, EF: ExtensionField<F>>(
    table: &[Option<ExprId<BaseLeaf<F>>>],
    id: ExprId<ExtLeaf<F, EF>>,
) -> ExprId<BaseLeaf<F>>
    requires { slice_index_or table.now id None ≢ None }
    ensures { slice_index_or table.now id None ≡ Some result }
{
    match table[id.number()] {
        Some(x) => x,
        None => unreachable!(),
    }
}

impl<F: Field, EF: ExtensionField<F>> ExprPool<ExtLeaf<F, EF>> {
    // Whether the marked node is an extension-only leaf.
    fn is_ext_only(&self, mark: Option<ExprId<ExtLeaf<F, EF>>>) -> bool
        requires pool { IsPool (ext_reads EF.basis) self.now }
        requires here { IfSome mark (λ i. i < size self.now) }
        ensures { (result ≡ true) ↔ IsMarkedExtOnly self.now mark }
    {
        match mark {
            Some(id) => match self.node(id) {
                SymbolicExpr::Leaf(ExtLeaf::Base(_)) => false,
                SymbolicExpr::Leaf(_) => true,
                _ => false,
            },
            None => false,
        }
    }

    // Whether the tree has an extension-only leaf: whether one of the reached nodes is one.
    fn has_ext_only(
        &self,
        id: ExprId<ExtLeaf<F, EF>>,
        marks: &[Option<ExprId<ExtLeaf<F, EF>>>],
    ) -> bool
        requires pool { IsPool (ext_reads EF.basis) self.now }
        requires here { id < size self.now }
        requires marked { Reached (ext_reads EF.basis self.now.base)
            self.now.nodes (id ∷ []) marks.now }
        ensures { (result ≡ true) ↔ HasExtOnly (tree_at self.now id) }
    {
        for mark in marks {
            if self.is_ext_only(*mark) {
                return true;
            }
        }
        false
    }

    // The counterpart of a node in the base pool, made from its operands' counterparts, with the same degree.
    fn over_base(
        &self,
        id: ExprId<ExtLeaf<F, EF>>,
        table: &[Option<ExprId<BaseLeaf<F>>>],
    ) -> Counterpart<F>
        requires pool { IsPool (ext_reads EF.basis) self.now }
        requires ready { CanLower self.now table.now id }
        ensures { IsCounterpart self.now id result }
    {
        match *self.node(id) {
            SymbolicExpr::Leaf(ExtLeaf::Base(b)) => Counterpart::Number(b),
            SymbolicExpr::Leaf(_) => unreachable!(),
            SymbolicExpr::Add {
                x,
                y,
                degree_multiple,
            } => Counterpart::Node(SymbolicExpr::Add {
                x: lowered_at(table, x),
                y: lowered_at(table, y),
                degree_multiple,
            }),
            SymbolicExpr::Sub {
                x,
                y,
                degree_multiple,
            } => Counterpart::Node(SymbolicExpr::Sub {
                x: lowered_at(table, x),
                y: lowered_at(table, y),
                degree_multiple,
            }),
            SymbolicExpr::Neg { x, degree_multiple } => Counterpart::Node(SymbolicExpr::Neg {
                x: lowered_at(table, x),
                degree_multiple,
            }),
            SymbolicExpr::Mul {
                x,
                y,
                degree_multiple,
            } => Counterpart::Node(SymbolicExpr::Mul {
                x: lowered_at(table, x),
                y: lowered_at(table, y),
                degree_multiple,
            }),
        }
    }

    // The base expression of a marked number, made from those of its operands.
    fn lower_mark(
        &mut self,
        mark: Option<ExprId<ExtLeaf<F, EF>>>,
        table: &[Option<ExprId<BaseLeaf<F>>>],
    ) -> Result<Option<ExprId<BaseLeaf<F>>>, RingError>
        requires pool { IsPool (ext_reads EF.basis) self.old }
        requires ready { IfSome mark (CanLower self.old table.now) }
        ensures same_nodes { self.new.nodes ≡ self.old.nodes }
        ensures grown { Grown ext_grows (ext_reads EF.basis) self.old self.new }
        ensures made { IfOk result (λ b. IfSome mark (λ i. IsLoweredIn self.old self.new i b)) }
        ensures refused { IfErr result (λ e. e ≡ RingError.Memory) }
    {
        let Some(id) = mark else {
            return Ok(None);
        };
        match self.over_base(id, table) {
            Counterpart::Number(number) => Ok(Some(number)),
            Counterpart::Node(node) => Ok(Some(self.base_mut().insert(node)?)),
        }
    }

    // The base expression of a tree without extension-only leaves. The reached nodes are lowered in ascending order,
    // into a table that must be empty.
    fn lower(
        &mut self,
        id: ExprId<ExtLeaf<F, EF>>,
        marks: &[Option<ExprId<ExtLeaf<F, EF>>>],
        table: &mut Vec<Option<ExprId<BaseLeaf<F>>>>,
    ) -> Result<ExprId<BaseLeaf<F>>, RingError>
        requires pool { IsPool (ext_reads EF.basis) self.old }
        requires here { id < size self.old }
        requires marked { Reached (ext_reads EF.basis self.old.base)
            self.old.nodes (id ∷ []) marks.now }
        requires base_only { HasExtOnly (tree_at self.old id) → ⊥ }
        requires no_places { table.old.items ≡ [] }
        ensures same_nodes { self.new.nodes ≡ self.old.nodes }
        ensures grown { Grown ext_grows (ext_reads EF.basis) self.old self.new }
        ensures made { IfOk result (HasTree self.new.base
            (lower self.old.base (tree_at self.old id))) }
        ensures refused { IfErr result (λ e. e ≡ RingError.Memory) }
    {
        for mark in marks {
            let made = self.lower_mark(*mark, table)?;
            table.push(made)?;
        }
        Ok(lowered_at(table, id))
    }

    /// The base expression with the same tree, not simplified, and so with the same term; `None` exactly if the tree
    /// has an extension-only leaf, and then the base pool is unchanged.
    pub fn to_base(
        &mut self,
        id: ExprId<ExtLeaf<F, EF>>,
    ) -> Result<Option<ExprId<BaseLeaf<F>>>, RingError>
        requires owed { FitsBase (ext_reads EF.basis) self.old }
        requires here { id < size self.old }
        ensures same_nodes { self.new.nodes ≡ self.old.nodes }
        ensures grown { Grown ext_grows (ext_reads EF.basis) self.old self.new }
        ensures made { IfOk result (λ b. MatchOption b (HasExtOnly (tree_at self.old id))
            (IsLowered self.old.base self.new.base (tree_at self.old id))) }
        ensures term { IfOk result (λ b. IfSome b
            (HasTermOf EF.basis self.old id self.new.base)) }
        ensures none { IfOk result (λ b. IfNone b (self.new ≡ self.old)) }
        ensures refused { IfErr result (λ e. e ≡ RingError.Memory) }
    {
        self.nodes_fit();
        let marks = reached_nodes(*self.nodes.allocator(), self, &[id])?;
        if self.has_ext_only(id, &marks) {
            return Ok(None);
        }
        let mut table = Vec::with_capacity(*self.nodes.allocator(), marks.len())?;
        let base = self.lower(id, &marks, &mut table)?;
        Ok(Some(base))
    }
}
