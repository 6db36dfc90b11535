//! Pushing the values of words in a row.
ghost use Rattle.std.specs.Prelude.{◌≡◌, ◌++◌, ◌≤◌, OnOk, length, slice_index};
ghost use Rattle.air_author.specs.Constraints.{asserts_of_first};
ghost use Rattle.air_blake3.specs.Values.{bit_values, four_bits, limb_values, output_values, quarter_values, state_values};

use air_field::Field;
use blake3::{Quarter, State};
use std::alloc::AllocError;

/// The result of pushing values.
pub(crate) type Pushed<T = ()> = Result<T, AllocError>;

/// Pushes the bits of a word, the lowest first.
pub(crate) fn push_bits<F: Field>(values: &mut Vec<F>, word: u32) -> Pushed
    ensures { OnOk result (values.new.items ≡ values.old.items ++ bit_values F.ring word) }
{
    let mut rest = word;
    for done in 0u32..32 {
        values.push(F::from_bool(rest % 2 == 1))?;
        rest = rest / 2;
    }
    Ok(())
}

/// Pushes the limbs of a word, the lower first.
fn push_limbs<F: Field>(values: &mut Vec<F>, word: u32) -> Pushed
    ensures { OnOk result (values.new.items ≡ values.old.items ++ limb_values F.ring word) }
{
    values.push(F::from_u64((word % 65536) as u64))?;
    values.push(F::from_u64((word / 65536) as u64))?;
    Ok(())
}

/// Pushes the four words of a column of the state: two by their limbs, and two by their bits.
fn push_quarter<F: Field>(values: &mut Vec<F>, q: Quarter) -> Pushed
    ensures { OnOk result (values.new.items ≡ values.old.items ++ quarter_values F.ring q) }
{
    push_limbs(values, q.a)?;
    push_bits(values, q.b)?;
    push_limbs(values, q.c)?;
    push_bits(values, q.d)
}

/// Pushes a state.
pub(crate) fn push_state<F: Field>(values: &mut Vec<F>, v: State) -> Pushed
    ensures { OnOk result (values.new.items ≡ values.old.items ++ state_values F.ring v) }
{
    push_quarter(values, v.q0)?;
    push_quarter(values, v.q1)?;
    push_quarter(values, v.q2)?;
    push_quarter(values, v.q3)
}

/// Pushes the bits of the first `count` words.
pub(crate) fn push_words<F: Field>(values: &mut Vec<F>, words: &[u32], count: usize) -> Pushed
    requires { count ≤ length words.now }
    ensures { OnOk result (values.new.items ≡ values.old.items ++ asserts_of_first
        (λ i. bit_values F.ring (slice_index words.now i)) count) }
{
    for i in 0..count {
        push_bits(values, words[i])?;
    }
    Ok(())
}

/// Pushes the bits of four words.
pub(crate) fn push_four<F: Field>(values: &mut Vec<F>, a: u32, b: u32, c: u32, d: u32) -> Pushed
    ensures { OnOk result (values.new.items ≡ values.old.items ++ four_bits F.ring a b c d) }
{
    push_bits(values, a)?;
    push_bits(values, b)?;
    push_bits(values, c)?;
    push_bits(values, d)
}

/// Pushes the bits of the sixteen words of the output, word after word.
pub(crate) fn push_output<F: Field>(values: &mut Vec<F>, o: State) -> Pushed
    ensures { OnOk result (values.new.items ≡ values.old.items ++ output_values F.ring o) }
{
    push_four(values, o.q0.a, o.q1.a, o.q2.a, o.q3.a)?;
    push_four(values, o.q0.b, o.q1.b, o.q2.b, o.q3.b)?;
    push_four(values, o.q0.c, o.q1.c, o.q2.c, o.q3.c)?;
    push_four(values, o.q0.d, o.q1.d, o.q2.d, o.q3.d)
}
