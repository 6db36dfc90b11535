//! Hashes of messages of any length.
ghost use Rattle.std.specs.Prelude.{◌≡◌, ◌+◌, ◌<◌, ◌≤◌, ◌++◌, length};
ghost use Rattle.keccak.specs.Hashing.{absorb, first_bytes, keccak_256, lane_of_bytes, padding, sha3_256, sponge, xored};

use crate::permutation::keccak_f;

/// The bytes of a block.
const BLOCK: usize = 136;

/// The eight bytes from an index on as a lane.
#[tactic(auto, unfolding(crate::specs::Hashing::lane_of_bytes))]
fn lane_of_bytes(bytes: &[u8], at: usize) -> u64
    requires { at + 8 ≤ length bytes.now }
    ensures { result ≡ lane_of_bytes bytes.now at }
{
    u64::from_le_bytes([
        bytes[at],
        bytes[at + 1],
        bytes[at + 2],
        bytes[at + 3],
        bytes[at + 4],
        bytes[at + 5],
        bytes[at + 6],
        bytes[at + 7],
    ])
}

/// The state with a block xored to its first 17 lanes.
#[tactic(auto, unfolding(crate::specs::Hashing::xored))]
fn xored(a: [u64; 25], block: &[u8]) -> [u64; 25]
    requires { length block.now ≡ 136 }
    ensures { result ≡ xored a block.now }
{
    [
        a[0] ^ lane_of_bytes(block, 0),
        a[1] ^ lane_of_bytes(block, 8),
        a[2] ^ lane_of_bytes(block, 16),
        a[3] ^ lane_of_bytes(block, 24),
        a[4] ^ lane_of_bytes(block, 32),
        a[5] ^ lane_of_bytes(block, 40),
        a[6] ^ lane_of_bytes(block, 48),
        a[7] ^ lane_of_bytes(block, 56),
        a[8] ^ lane_of_bytes(block, 64),
        a[9] ^ lane_of_bytes(block, 72),
        a[10] ^ lane_of_bytes(block, 80),
        a[11] ^ lane_of_bytes(block, 88),
        a[12] ^ lane_of_bytes(block, 96),
        a[13] ^ lane_of_bytes(block, 104),
        a[14] ^ lane_of_bytes(block, 112),
        a[15] ^ lane_of_bytes(block, 120),
        a[16] ^ lane_of_bytes(block, 128),
        a[17],
        a[18],
        a[19],
        a[20],
        a[21],
        a[22],
        a[23],
        a[24],
    ]
}

/// The last block: the rest of the message, and its padding.
fn last_block(rest: &[u8], first: u8) -> [u8; 136]
    requires { length rest.now < 136 }
    ensures { result ≡ rest.now ++ padding first (length rest.now) }
{
    let mut block = [0; BLOCK];
    block[..rest.len()].copy_from_slice(rest);
    block[rest.len()] = first;
    block[BLOCK - 1] |= 0x80;
    block
}

/// The state after a block: the block is xored to it, and the permutation follows.
fn absorb(a: [u64; 25], block: &[u8]) -> [u64; 25]
    requires { length block.now ≡ 136 }
    ensures { result ≡ absorb a block.now }
{
    keccak_f(xored(a, block))
}

/// The first 32 bytes of a state.
fn first_bytes(a: [u64; 25]) -> [u8; 32]
    ensures { result ≡ first_bytes a }
{
    let b = a[0].to_le_bytes();
    let c = a[1].to_le_bytes();
    let d = a[2].to_le_bytes();
    let e = a[3].to_le_bytes();
    [
        b[0], b[1], b[2], b[3], b[4], b[5], b[6], b[7], c[0], c[1], c[2], c[3], c[4], c[5], c[6],
        c[7], d[0], d[1], d[2], d[3], d[4], d[5], d[6], d[7], e[0], e[1], e[2], e[3], e[4], e[5],
        e[6], e[7],
    ]
}

/// The digest of a message, with the byte that holds the padding's first bits.
fn sponge(message: &[u8], first: u8) -> [u8; 32]
    ensures { result ≡ sponge first message.now }
{
    let whole = message.len() / BLOCK;
    let mut state = [0; 25];
    for index in 0..whole {
        let block = &message[BLOCK * index..BLOCK * index + BLOCK];
        let next = absorb(state, block);
        state = next;
    }
    let last = last_block(&message[BLOCK * whole..], first);
    first_bytes(absorb(state, &last))
}

/// The digest SHA3-256 of a message of any length.
pub fn sha3_256(message: &[u8]) -> [u8; 32]
    ensures { result ≡ sha3_256 message.now }
{
    sponge(message, 0x06)
}

/// The digest Keccak-256 of a message of any length: as SHA3-256, but only with the padding 1 0 .. 0 1.
pub fn keccak_256(message: &[u8]) -> [u8; 32]
    ensures { result ≡ keccak_256 message.now }
{
    sponge(message, 0x01)
}
