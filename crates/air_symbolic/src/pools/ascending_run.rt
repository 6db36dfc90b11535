//! Ascending keys, each with its number.
ghost use Rattle.std.specs.Prelude.{◌≡◌, ◌↔◌, ◌++◌, [], ◌∷◌, IsTrue, IfOk, OnOk, OnErr};
ghost use Rattle.std.specs.BTreeMap.{is_at};
ghost use Rattle.std.specs.Map.{lookup};
ghost use Rattle.air_symbolic.specs.Runs.{IsBelow};

use std::alloc::{AllocError, Global};
use std::marker::Model;

// The number of keys that a new run has room for.
const FIRST_KEYS: usize = 8;

/// Ascending keys, each with its number. Keys are found by binary search; only a key above all others can be added.
#[derive(Drop)]
pub struct AscendingRun<K: Copy + Ord> {
    pairs: Vec<(K, usize)>,
}

impl<K: Copy + Ord> Model for AscendingRun<K> {
    ghost use Rattle.std.specs.Prelude.{ℕ, List};
    ghost use Rattle.air_symbolic.specs.Runs.{IsAscending};

    ghost Value = { List (K × ℕ) };

    ghost view = { λ r. r.pairs.items };

    ghost invariant = { λ r. IsAscending K.cmp r.pairs.items };
}

impl<K: Copy + Ord> AscendingRun<K> {
    /// A run without keys, with room for the first few.
    pub fn new(alloc: Global) -> Result<Self, AllocError>
        ensures { IfOk result (λ run. run ≡ []) }
    {
        let pairs = Vec::with_capacity(alloc, FIRST_KEYS)?;
        Ok(AscendingRun { pairs })
    }

    /// Whether all keys are below this one.
    pub fn is_below(&self, key: K) -> bool
        ensures { IsTrue result ↔ IsBelow K.cmp self.now key }
    {
        match self.pairs.last() {
            Some(last) => last.0.cmp(&key).is_lt(),
            None => true,
        }
    }

    /// The number of a key, if it has one.
    pub fn find(&self, key: K) -> Option<usize>
        ensures { result ≡ lookup (is_at (K.cmp key)) self.now }
    {
        // New nodes mostly name new ones, so most keys that are missing are above all keys of the run.
        if self.is_below(key) {
            return None;
        }
        match self.pairs.binary_search_by(|pair| pair.0.cmp(&key)) {
            Ok(at) => Some(self.pairs[at].1),
            Err(_) => None,
        }
    }

    /// Adds a key above all others, and its number. On failure the run is unchanged.
    pub fn push(&mut self, key: K, number: usize) -> Result<(), AllocError>
        requires below { IsBelow K.cmp self.old key }
        ensures pushed { OnOk result (self.new ≡ self.old ++ (key, number) ∷ []) }
        ensures refused { OnErr result (self.new ≡ self.old) }
    {
        self.pairs.push((key, number))?;
        Ok(())
    }
}
