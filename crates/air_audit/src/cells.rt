//! Cells of a row: numbers followed by their bits, as the values for bits and words read them.
ghost use Rattle.std.specs.Prelude.{◌≡◌, ◌-◌, ◌/◌, ◌%◌, ◌<◌, ◌∷◌, ◌++◌};
ghost use Rattle.air_gadgets.specs.Bits.{digits_of};

/// A number, followed by its N - 1 lowest bits, the lowest first.
pub fn with_bits<const N: usize>(number: u64) -> [u64; N]
    requires { 0 < N }
    ensures { result ≡ number ∷ digits_of 2 (N - 1) number }
{
    let mut cells = [number; N];
    let mut left = number;
    for i in 1..N {
        cells[i] = left % 2;
        left /= 2;
    }
    cells
}

/// The cells of a word, as the value `WordOfBits` reads them: its lower half, followed by the 16 bits of that half,
/// then the same for its upper half.
pub fn word_with_bits(word: u32) -> [u64; 34]
    ensures { result ≡ ((word % 65536 ∷ digits_of 2 16 (word % 65536)) ++
        (word / 65536 ∷ digits_of 2 16 (word / 65536))) }
{
    let mut cells = [0; 34];
    let (lower, upper) = cells.split_at_mut(17);
    lower.copy_from_slice(&with_bits::<17>((word % 65536) as u64));
    upper.copy_from_slice(&with_bits::<17>((word / 65536) as u64));
    cells
}
