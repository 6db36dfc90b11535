//! G, the mixing of four words.
ghost use Rattle.std.specs.Prelude.{◌≡◌, ◌<◌, slice_index};
ghost use Rattle.blake3.specs.Compression.{half_mix};
ghost use Rattle.blake3.specs.Blocks.{columns_half, columns_whole};

use crate::words::{Quarter, State};

/// Half of G, with its two rotations and a word of the message.
pub fn half_mix(j: u32, k: u32, q: Quarter, m: u32) -> Quarter
    requires j_in { j < 32 }
    requires k_in { k < 32 }
    ensures { result ≡ half_mix j k q m }
{
    let a = q.a.wrapping_add(q.b).wrapping_add(m);
    let d = (q.d ^ a).rotate_right(j);
    let c = q.c.wrapping_add(d);
    let b = (q.b ^ c).rotate_right(k);
    Quarter { a, b, c, d }
}

/// The first half of G on each column, with four of eight words of the message.
pub fn columns_half(v: State, m: &[u32; 8]) -> State
    ensures { result ≡ columns_half v (slice_index m.now) }
{
    State {
        q0: half_mix(16, 12, v.q0, m[0]),
        q1: half_mix(16, 12, v.q1, m[2]),
        q2: half_mix(16, 12, v.q2, m[4]),
        q3: half_mix(16, 12, v.q3, m[6]),
    }
}

/// The second half of G on each column, with the other four words.
pub fn columns_whole(v: State, m: &[u32; 8]) -> State
    ensures { result ≡ columns_whole v (slice_index m.now) }
{
    State {
        q0: half_mix(8, 7, v.q0, m[1]),
        q1: half_mix(8, 7, v.q1, m[3]),
        q2: half_mix(8, 7, v.q2, m[5]),
        q3: half_mix(8, 7, v.q3, m[7]),
    }
}
