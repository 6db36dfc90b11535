//! The theorem, as the contract of a function.
ghost use Rattle.air_blake3_path.specs.Roots.{PathsAreSound, RootsAreSound};

use air_blake3::compression_is_sound;
use air_chains::empty_reports_hold;
use air_field::PrimeField;

/// If an exact report of `MerklePath` without a cap lists nothing, over a field whose characteristic is above 3 · 2^16,
/// the public values are those of a leaf, of the root above it for some siblings, and of the leaf's index (`paths`). So
/// if they are those of a given leaf, root and index, the root is the one above the leaf at this index for some
/// siblings, where the characteristic is at least the number of leaves (`roots`). The report of an audit is exact.
pub fn paths_are_sound<F: PrimeField>()
    ensures paths { PathsAreSound F.ring F.eq F.CHARACTERISTIC }
    ensures roots { RootsAreSound F.ring F.eq F.CHARACTERISTIC }
{
    compression_is_sound::<F>();
    empty_reports_hold::<F>();
}
