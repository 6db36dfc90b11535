//! The permutation: 24 rounds of the five steps.
ghost use Rattle.std.specs.Prelude.{◌≡◌, ◌<◌};
ghost use Rattle.keccak.specs.Permutation.{keccak_f, round};
ghost use Rattle.keccak.specs.Constants.{round_constant};

use crate::steps::{chi, iota, pi, rho, theta};

const ROUND_CONSTANTS: [u64; 24] = [
    0x0000000000000001,
    0x0000000000008082,
    0x800000000000808A,
    0x8000000080008000,
    0x000000000000808B,
    0x0000000080000001,
    0x8000000080008081,
    0x8000000000008009,
    0x000000000000008A,
    0x0000000000000088,
    0x0000000080008009,
    0x000000008000000A,
    0x000000008000808B,
    0x800000000000008B,
    0x8000000000008089,
    0x8000000000008003,
    0x8000000000008002,
    0x8000000000000080,
    0x000000000000800A,
    0x800000008000000A,
    0x8000000080008081,
    0x8000000000008080,
    0x0000000080000001,
    0x8000000080008008,
];

/// The constant of a round.
pub fn round_constant(index: usize) -> u64
    requires { index < 24 }
    ensures { result ≡ round_constant index }
{
    ROUND_CONSTANTS[index]
}

/// The state after a round, from the state before it.
pub fn round(a: [u64; 25], index: usize) -> [u64; 25]
    requires { index < 24 }
    ensures { result ≡ round a index }
{
    iota(chi(pi(rho(theta(a)))), round_constant(index))
}

/// The permutation Keccak-f of a state of 25 lanes. Lane (x, y) is at index x + 5 y.
pub fn keccak_f(mut state: [u64; 25]) -> [u64; 25]
    ensures { result ≡ keccak_f state }
{
    for index in 0usize..24 {
        let next = round(state, index);
        state = next;
    }
    state
}
