//! All that a tape held.
ghost use Rattle.std.specs.Prelude.{◌≡◌, ◌<◌, ◌≤◌, ℕ, length, slice_index_or, IfOk, MatchOption};
ghost use Rattle.air_tape.specs.Tapes.{Shows, Told};

use crate::tape::{Receipt, Tape};
use std::alloc::{AllocError, Global};
use std::snapshot::Snapshot;

/// All that a tape held, in order.
#[derive(Drop)]
pub struct Listing<T: Copy + Drop> {
    /// The values.
    pub items: Vec<T>,
    // Their receipts.
    shown: Vec<Receipt<T>>,
    // The tape as it was.
    tape: Snapshot<Tape<T>>,
    ghost told: { Told tape.value items.items shown.items },
}

impl<T: Copy + Drop> Listing<T> {
    /// All that the tape holds.
    pub fn of(alloc: Global, tape: &Tape<T>) -> Result<Listing<T>, AllocError>
        ensures { IfOk result (λ l. l.tape.value ≡ tape.now) }
    {
        let mut items = Vec::new(alloc);
        let mut shown = Vec::new(alloc);
        for i in 0..tape.len() {
            let Some(receipt) = tape.witness(i) else {
                return Err(AllocError);
            };
            items.push(*tape.value(&receipt))?;
            shown.push(receipt)?;
        }
        Ok(Listing {
            items,
            shown,
            tape: Snapshot::of(tape),
        })
    }

    /// The value of a receipt of the tape, at its index. None if the list is shorter: the receipt is for a later value.
    pub fn get(&self, receipt: &Receipt<T>) -> Option<&T>
        requires { Shows self.now.tape.value receipt.now }
        ensures { MatchOption result (length self.now.items.items ≤ receipt.now.index)
            (λ r. (r.now ≡ receipt.now.value)
            × (receipt.now.index < length self.now.items.items)
            × (slice_index_or self.now.items.items receipt.now.index r.now ≡ receipt.now.value)) }
    {
        let index = receipt.index();
        if index >= self.items.len() {
            return None;
        }
        self.shown[index].agrees(receipt);
        Some(&self.items[index])
    }
}
