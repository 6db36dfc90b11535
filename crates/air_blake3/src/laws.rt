//! The theorems, as the contracts of functions: call one to use its fact.
ghost use Rattle.air_blake3.specs.Holding.{CompressionIsComplete, CompressionIsSound, MixIsComplete, MixIsSound};

use air_field::Field;

/// Over a field in which a product is zero only if a factor is, and whose characteristic is above 3 · 2^16: if all
/// declared terms of `Compression` are zero at a row, its input columns hold a block, and its output columns hold the
/// block's compression. Nothing is assumed about any column. `mix` is the same theorem for G.
pub fn compression_is_sound<F: Field>()
    ensures mix { MixIsSound F.ring F.CHARACTERISTIC }
    ensures compression { CompressionIsSound F.ring F.CHARACTERISTIC }
{}

/// If a row holds a block, the states of its rounds and its compression, all terms are zero there.
pub fn compression_is_complete<F: Field>()
    ensures mix { MixIsComplete F.ring F.CHARACTERISTIC }
    ensures compression { CompressionIsComplete F.ring F.CHARACTERISTIC }
{}
