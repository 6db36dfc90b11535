//! Facts for callers, as the contracts of functions.
ghost use Rattle.air_field.specs.Ring.{self_algebra};
ghost use Rattle.air_gadgets.specs.Exact.{Add2IsExact, Add3IsExact, XorIsExact};
ghost use Rattle.air_gadgets.specs.PowerSums.{PacksValuesIn, PacksByPowers, PacksNumbers, EmbedsImages};

use air_field::{ExtensionField, Field};

/// When all terms of a word gadget are zero, over a field in which a product is zero only if a factor is. With limbs of
/// 16 bits, those of `add2` are zero exactly if `a` is `b + c` modulo 2^32, in a characteristic above 2^17; those of
/// `add3` exactly if `a` is `b + c + d` modulo 2^32, in a characteristic above 3 · 2^16. If `b` is made of bits, those
/// of `xor_32_shift` are zero exactly if `c` is made of bits too and the limbs of `a` are the images of the halves of
/// `b` xor `c` rotated to the left.
pub fn words_are_exact<F: Field>()
    ensures add2 { Add2IsExact F.ring F.CHARACTERISTIC }
    ensures add3 { Add3IsExact F.ring F.CHARACTERISTIC }
    ensures xor { XorIsExact F.ring }
{}

/// `pack_bits_le` of the bits of a number is the number's image, over the field and over an extension; the extension
/// embeds the field's image of a number as its own. Of any elements v_i, it is the sum of 2^i v_i, which is also
/// packing by doubling.
pub fn packed_bits_are_numbers<F: Field, EF: ExtensionField<F>>()
    ensures numbers { PacksNumbers (self_algebra F.ring) F.ZERO }
    ensures ext_numbers { PacksNumbers EF.over F.ZERO }
    ensures sums { PacksValuesIn (self_algebra F.ring) F.ZERO }
    ensures ext_sums { PacksValuesIn EF.over F.ZERO }
    ensures powers { PacksByPowers F.ring }
    ensures ext_powers { PacksByPowers EF.over.ring }
    ensures images { EmbedsImages F.ring EF.over }
{}
