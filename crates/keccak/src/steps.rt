//! The five steps of a round. Lane (x, y) of a state is at index x + 5 y.
ghost use Rattle.std.specs.Prelude.{◌≡◌};
ghost use Rattle.keccak.specs.Steps.{chi, effects, iota, parities, pi, rho, theta};

/// The xor of the five lanes with this x, for each x.
#[tactic(auto, unfolding(crate::specs::Steps::parity))]
fn parities(a: [u64; 25]) -> [u64; 5]
    ensures { result ≡ parities a }
{
    [
        a[0] ^ a[5] ^ a[10] ^ a[15] ^ a[20],
        a[1] ^ a[6] ^ a[11] ^ a[16] ^ a[21],
        a[2] ^ a[7] ^ a[12] ^ a[17] ^ a[22],
        a[3] ^ a[8] ^ a[13] ^ a[18] ^ a[23],
        a[4] ^ a[9] ^ a[14] ^ a[19] ^ a[24],
    ]
}

/// What theta adds to the lanes of each x: the parity on its left, and the one on its right rotated by one.
#[tactic(auto, unfolding(crate::specs::Steps::effect))]
fn effects(a: [u64; 25]) -> [u64; 5]
    ensures { result ≡ effects a }
{
    let c = parities(a);
    [
        c[4] ^ c[1].rotate_left(1),
        c[0] ^ c[2].rotate_left(1),
        c[1] ^ c[3].rotate_left(1),
        c[2] ^ c[4].rotate_left(1),
        c[3] ^ c[0].rotate_left(1),
    ]
}

/// Xors to each lane two parities of columns beside it.
pub fn theta(a: [u64; 25]) -> [u64; 25]
    ensures { result ≡ theta a }
{
    let d = effects(a);
    [
        a[0] ^ d[0],
        a[1] ^ d[1],
        a[2] ^ d[2],
        a[3] ^ d[3],
        a[4] ^ d[4],
        a[5] ^ d[0],
        a[6] ^ d[1],
        a[7] ^ d[2],
        a[8] ^ d[3],
        a[9] ^ d[4],
        a[10] ^ d[0],
        a[11] ^ d[1],
        a[12] ^ d[2],
        a[13] ^ d[3],
        a[14] ^ d[4],
        a[15] ^ d[0],
        a[16] ^ d[1],
        a[17] ^ d[2],
        a[18] ^ d[3],
        a[19] ^ d[4],
        a[20] ^ d[0],
        a[21] ^ d[1],
        a[22] ^ d[2],
        a[23] ^ d[3],
        a[24] ^ d[4],
    ]
}

/// Rotates each lane by its offset.
pub fn rho(a: [u64; 25]) -> [u64; 25]
    ensures { result ≡ rho a }
{
    [
        a[0],
        a[1].rotate_left(1),
        a[2].rotate_left(62),
        a[3].rotate_left(28),
        a[4].rotate_left(27),
        a[5].rotate_left(36),
        a[6].rotate_left(44),
        a[7].rotate_left(6),
        a[8].rotate_left(55),
        a[9].rotate_left(20),
        a[10].rotate_left(3),
        a[11].rotate_left(10),
        a[12].rotate_left(43),
        a[13].rotate_left(25),
        a[14].rotate_left(39),
        a[15].rotate_left(41),
        a[16].rotate_left(45),
        a[17].rotate_left(15),
        a[18].rotate_left(21),
        a[19].rotate_left(8),
        a[20].rotate_left(18),
        a[21].rotate_left(2),
        a[22].rotate_left(61),
        a[23].rotate_left(56),
        a[24].rotate_left(14),
    ]
}

/// Moves lane (x + 3 y, x) to (x, y).
#[tactic(auto, unfolding(crate::specs::Steps::pi))]
pub fn pi(a: [u64; 25]) -> [u64; 25]
    ensures { result ≡ pi a }
{
    [
        a[0], a[6], a[12], a[18], a[24], a[3], a[9], a[10], a[16], a[22], a[1], a[7], a[13], a[19],
        a[20], a[4], a[5], a[11], a[17], a[23], a[2], a[8], a[14], a[15], a[21],
    ]
}

/// Xors to each lane the conjunction of the second lane on its right and the complement of the first.
#[tactic(auto, unfolding(crate::specs::Steps::chi))]
pub fn chi(a: [u64; 25]) -> [u64; 25]
    ensures { result ≡ chi a }
{
    [
        a[0] ^ (!a[1] & a[2]),
        a[1] ^ (!a[2] & a[3]),
        a[2] ^ (!a[3] & a[4]),
        a[3] ^ (!a[4] & a[0]),
        a[4] ^ (!a[0] & a[1]),
        a[5] ^ (!a[6] & a[7]),
        a[6] ^ (!a[7] & a[8]),
        a[7] ^ (!a[8] & a[9]),
        a[8] ^ (!a[9] & a[5]),
        a[9] ^ (!a[5] & a[6]),
        a[10] ^ (!a[11] & a[12]),
        a[11] ^ (!a[12] & a[13]),
        a[12] ^ (!a[13] & a[14]),
        a[13] ^ (!a[14] & a[10]),
        a[14] ^ (!a[10] & a[11]),
        a[15] ^ (!a[16] & a[17]),
        a[16] ^ (!a[17] & a[18]),
        a[17] ^ (!a[18] & a[19]),
        a[18] ^ (!a[19] & a[15]),
        a[19] ^ (!a[15] & a[16]),
        a[20] ^ (!a[21] & a[22]),
        a[21] ^ (!a[22] & a[23]),
        a[22] ^ (!a[23] & a[24]),
        a[23] ^ (!a[24] & a[20]),
        a[24] ^ (!a[20] & a[21]),
    ]
}

/// Xors the round's constant to lane (0, 0).
#[tactic(auto, unfolding(crate::specs::Steps::iota))]
pub fn iota(mut a: [u64; 25], constant: u64) -> [u64; 25]
    ensures { result ≡ iota a constant }
{
    a[0] ^= constant;
    a
}
