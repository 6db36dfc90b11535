//! Extension variables.
ghost use Rattle.std.specs.Prelude.{◌≡◌, []};
ghost use Rattle.std.specs.Cmp.{partial_order_from_own_ties};
ghost use Rattle.std.specs.Cmp.Rules.{comparing};
ghost use Rattle.std.specs.Ordering.{on, nat_cmp, then_cmp, as_partial_cmp};
ghost use Rattle.std.proofs.Common.{rules};
ghost use Rattle.air_field.specs.Degree.{cached_weight, trace_weight};
ghost use Rattle.air_core.specs.ExtEntries.{ext_entry_leaf};
ghost use Rattle.air_core.specs.contracts.variables.ext_entry.ExtEntryOrd.TheImpl.Laws.{total-law as entry_total};

use crate::variables::ext_entry::ExtEntry;
use std::cmp::Ordering;
use std::marker::PhantomData;

/// An extension variable: an entry, and an index into it.
#[derive(Clone, Copy, Debug, PartialEq, Eq)]
pub struct SymbolicVariableExt<F, EF> {
    pub entry: ExtEntry,
    pub index: usize,
    of: PhantomData<(F, EF)>,
}

/// By index first, and by entry second. Authors mostly use a column on this row and on the next before they go on to
/// later columns, so in this order the variables that they use mostly ascend.
impl<F: Ord, EF: Ord> Ord for SymbolicVariableExt<F, EF> {
    ghost cmp = { then_cmp (on (λ v. v.index) nat_cmp) (on (λ v. v.entry) ⟦<ExtEntry as Ord>⟧.cmp) };

    ghost total = { Prim.search (comparing, entry_total, rules) };

    ghost matches_partial_cmp = { Prim.search (comparing, rules) };

    ghost matches_eq = { Prim.search (comparing, rules) };

    fn cmp(&self, other: &Self) -> Ordering {
        match self.index.cmp(&other.index) {
            Ordering::Equal => self.entry.cmp(&other.entry),
            order => order,
        }
    }
}

impl<F: PartialOrd, EF: PartialOrd> PartialOrd for SymbolicVariableExt<F, EF> {
    ghost partial_cmp = { as_partial_cmp
        (then_cmp (on (λ v. v.index) nat_cmp) (on (λ v. v.entry) ⟦<ExtEntry as Ord>⟧.cmp)) };

    ghost laws = { partial_order_from_own_ties (Prim.search (comparing, entry_total, rules))
        (Prim.search (comparing, rules)) };

    fn partial_cmp(&self, other: &Self) -> Option<Ordering> {
        match self.index.cmp(&other.index) {
            Ordering::Equal => Some(self.entry.cmp(&other.entry)),
            order => Some(order),
        }
    }
}

impl<F, EF> SymbolicVariableExt<F, EF> {
    /// The variable with index `index` of `entry`.
    pub fn new(entry: ExtEntry, index: usize) -> Self
        ensures entry { result.entry ≡ entry }
        ensures index { result.index ≡ index }
    {
        SymbolicVariableExt {
            entry,
            index,
            of: PhantomData,
        }
    }

    /// The degree that nodes state: 1 for a column, 0 for a challenge or a permutation value.
    pub fn degree_multiple(&self) -> usize
        ensures { result ≡ cached_weight (ext_entry_leaf self.now.entry self.now.index) }
    {
        match self.entry {
            ExtEntry::Permutation { .. } => 1,
            _ => 0,
        }
    }

    /// The degree of the variable's polynomial over `trace_len` rows. No extension variable is periodic.
    pub fn poly_degree(&self, trace_len: usize) -> usize
        ensures { result ≡ trace_weight trace_len []
            (ext_entry_leaf self.now.entry self.now.index) }
    {
        match self.entry {
            ExtEntry::Permutation { .. } => trace_len.saturating_sub(1),
            _ => 0,
        }
    }
}
