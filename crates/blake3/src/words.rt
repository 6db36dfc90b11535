//! The sixteen words of the state, v0 to v15.
ghost use Rattle.std.specs.Prelude.{◌≡◌};
ghost use Rattle.blake3.specs.Compression.{diagonals, from_diagonals};

/// Four of the words: column k has v_k, v_(4 + k), v_(8 + k) and v_(12 + k).
#[derive(Clone, Copy, Drop)]
pub struct Quarter {
    pub a: u32,
    pub b: u32,
    pub c: u32,
    pub d: u32,
}

/// All sixteen words, in four columns.
#[derive(Clone, Copy, Drop)]
pub struct State {
    pub q0: Quarter,
    pub q1: Quarter,
    pub q2: Quarter,
    pub q3: Quarter,
}

/// A column of four words.
fn four_words(a: u32, b: u32, c: u32, d: u32) -> Quarter
    ensures { result ≡ record { a = a; b = b; c = c; d = d } }
{
    Quarter { a, b, c, d }
}

impl State {
    /// The diagonals as columns.
    pub fn diagonals(self) -> State
        ensures { result ≡ diagonals self }
    {
        let State { q0, q1, q2, q3 } = self;
        State {
            q0: four_words(q0.a, q1.b, q2.c, q3.d),
            q1: four_words(q1.a, q2.b, q3.c, q0.d),
            q2: four_words(q2.a, q3.b, q0.c, q1.d),
            q3: four_words(q3.a, q0.b, q1.c, q2.d),
        }
    }

    /// The columns as diagonals.
    pub fn from_diagonals(self) -> State
        ensures { result ≡ from_diagonals self }
    {
        let State { q0, q1, q2, q3 } = self;
        State {
            q0: four_words(q0.a, q3.b, q2.c, q1.d),
            q1: four_words(q1.a, q0.b, q3.c, q2.d),
            q2: four_words(q2.a, q1.b, q0.c, q3.d),
            q3: four_words(q3.a, q2.b, q1.c, q0.d),
        }
    }
}
