//! The numbers of the nodes of one kind.
ghost use Rattle.std.specs.Prelude.{◌≡◌, ℕ, List, None, Some, IfSome, OnOk, OnErr};
ghost use Rattle.std.specs.List.{slice_get};
ghost use Rattle.std.specs.declared.cmp.Ordering.TheVariants.{Equal};
ghost use Rattle.air_symbolic.specs.Runs.{IsBelow};
ghost use Rattle.air_symbolic.specs.Numbering.{numbers_by, Entered};

use crate::pools::ascending_run::AscendingRun;
use std::alloc::{AllocError, Global};
use std::collections::BTreeMap;

// The greatest number of runs in a table. Keys mostly come in a few interleaved sequences, such as the columns of this
// row and of the next one.
const RUNS: usize = 4;

/// The numbers of nodes of one kind, by keys that distinguish them. A key goes to the end of the first run whose keys
/// are all below it. If there is none, it begins a new run, or goes into an ordered map once there are `RUNS` runs.
#[derive(Drop)]
pub struct KindTable<K: Copy + Ord> {
    pub(crate) runs: Vec<AscendingRun<K>>,
    pub(crate) rest: BTreeMap<K, usize>,
}

impl<K: Copy + Ord> KindTable<K> {
    /// A table without numbers. Allocates nothing.
    pub fn new(alloc: Global) -> Self
        ensures { (k : K) → numbers_by K.cmp result k ≡ None }
    {
        KindTable {
            runs: Vec::new(alloc),
            rest: BTreeMap::new(alloc),
        }
    }

    /// The number of a key, if it has one.
    pub fn find(&self, key: K) -> Option<usize>
        ensures { result ≡ numbers_by K.cmp self.now key }
    {
        for run in &self.runs {
            if let Some(number) = run.find(key) {
                return Some(number);
            }
        }
        self.rest.get(&key).copied()
    }

    /// Gives a number to a key that has none. On failure the table finds what it found before.
    pub fn enter(&mut self, key: K, number: usize) -> Result<(), AllocError>
        requires exact { (k : K) → K.cmp key k ≡ Equal → key ≡ k }
        ensures entered { OnOk result (numbers_by K.cmp self.old key ≡ None →
            Entered (numbers_by K.cmp self.old) (numbers_by K.cmp self.new) key number) }
        ensures refused { OnErr result ((k : K) →
            numbers_by K.cmp self.new k ≡ numbers_by K.cmp self.old k) }
    {
        if let Some(at) = run_below(&self.runs, key) {
            return self.runs[at].push(key, number);
        }
        if self.runs.len() < RUNS {
            let mut run = AscendingRun::new(*self.runs.allocator())?;
            run.push(key, number)?;
            return Ok(self.runs.push(run)?);
        }
        self.rest.insert(key, number)?;
        Ok(())
    }
}

/// The index of a run whose keys are all below this one.
fn run_below<K: Copy + Ord>(runs: &[AscendingRun<K>], key: K) -> Option<usize>
    ensures { IfSome result (λ i. (run : List (K × ℕ))
        × (slice_get runs.now i ≡ Some run) × IsBelow K.cmp run key) }
{
    for at in 0..runs.len() {
        if runs[at].is_below(key) {
            return Some(at);
        }
    }
    None
}
