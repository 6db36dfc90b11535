//! Words of 32 bits as public values.
ghost use Rattle.std.specs.Prelude.{◌≡◌, ◌++◌, OnOk};
ghost use Rattle.air_chains.specs.WordValues.{word_values};

use air_field::Field;
use std::alloc::AllocError;

/// Pushes each word as two values, its lower and its upper 16 bits. After an error some of them are pushed.
pub fn push_words<F: Field>(values: &mut Vec<F>, words: &[u32]) -> Result<(), AllocError>
    ensures { OnOk result (values.new.items ≡ values.old.items
        ++ word_values F.ring words.now) }
{
    for word in words {
        values.push(F::from_u64((*word % 65536) as u64))?;
        values.push(F::from_u64((*word / 65536) as u64))?;
    }
    Ok(())
}
