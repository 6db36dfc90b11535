//! Base variables.
ghost use Rattle.std.specs.Prelude.{◌≡◌};
ghost use Rattle.std.specs.Cmp.{partial_order_from_own_ties};
ghost use Rattle.std.specs.Cmp.Rules.{comparing};
ghost use Rattle.std.specs.Ordering.{on, nat_cmp, then_cmp, as_partial_cmp};
ghost use Rattle.std.proofs.Common.{rules};
ghost use Rattle.air_field.specs.Degree.{cached_weight, trace_weight};
ghost use Rattle.air_core.specs.Entries.{entry_leaf};
ghost use Rattle.air_core.specs.contracts.variables.entry.BaseEntryOrd.TheImpl.Laws.{total-law as entry_total};

use crate::variables::entry::BaseEntry;
use std::cmp::Ordering;
use std::marker::PhantomData;

/// A base variable: an entry, and an index into it.
#[derive(Clone, Copy, Debug, PartialEq, Eq)]
pub struct SymbolicVariable<F> {
    pub entry: BaseEntry,
    pub index: usize,
    of: PhantomData<F>,
}

/// By index first, and by entry second. Authors mostly use a column on this row and on the next before they go on to
/// later columns, so in this order the variables that they use mostly ascend.
impl<F: Ord> Ord for SymbolicVariable<F> {
    ghost cmp = { then_cmp (on (λ v. v.index) nat_cmp) (on (λ v. v.entry) ⟦<BaseEntry as Ord>⟧.cmp) };

    ghost total = { Prim.search (comparing, entry_total, rules) };

    ghost matches_partial_cmp = { Prim.search (comparing, rules) };

    ghost matches_eq = { Prim.search (comparing, rules) };

    fn cmp(&self, other: &Self) -> Ordering {
        match self.index.cmp(&other.index) {
            Ordering::Equal => self.entry.cmp(&other.entry),
            order => order,
        }
    }
}

impl<F: PartialOrd> PartialOrd for SymbolicVariable<F> {
    ghost partial_cmp = { as_partial_cmp
        (then_cmp (on (λ v. v.index) nat_cmp) (on (λ v. v.entry) ⟦<BaseEntry as Ord>⟧.cmp)) };

    ghost laws = { partial_order_from_own_ties (Prim.search (comparing, entry_total, rules))
        (Prim.search (comparing, rules)) };

    fn partial_cmp(&self, other: &Self) -> Option<Ordering> {
        match self.index.cmp(&other.index) {
            Ordering::Equal => Some(self.entry.cmp(&other.entry)),
            order => Some(order),
        }
    }
}

impl<F> SymbolicVariable<F> {
    /// The variable with index `index` of `entry`.
    pub fn new(entry: BaseEntry, index: usize) -> Self
        ensures entry { result.entry ≡ entry }
        ensures index { result.index ≡ index }
    {
        SymbolicVariable {
            entry,
            index,
            of: PhantomData,
        }
    }

    /// The degree that nodes state: 1 for a column, 0 for a public value.
    pub fn degree_multiple(&self) -> usize
        ensures { result ≡ cached_weight (entry_leaf self.now.entry self.now.index) }
    {
        match self.entry {
            BaseEntry::Public => 0,
            _ => 1,
        }
    }

    /// The degree of the variable's polynomial over `trace_len` rows; `periods` holds the lengths of the periodic
    /// columns. A column that repeats with period p, a divisor of the number N of rows, is a polynomial in the (N/p)-th
    /// power of the trace's variable, of degree at most N - N/p. For any other p up to N the answer is N - N/p with N/p
    /// rounded down. A column of length 0, one that isn't listed, and one longer than N count as columns of the trace.
    pub fn poly_degree(&self, trace_len: usize, periods: &[usize]) -> usize
        ensures { result ≡ trace_weight trace_len periods.now
            (entry_leaf self.now.entry self.now.index) }
    {
        match self.entry {
            BaseEntry::Public => 0,
            BaseEntry::Periodic => {
                let period = periods.get(self.index).copied().unwrap_or(trace_len);
                match period.min(trace_len) {
                    0 => trace_len.saturating_sub(1),
                    repeats_after => trace_len - trace_len / repeats_after,
                }
            }
            _ => trace_len.saturating_sub(1),
        }
    }
}
