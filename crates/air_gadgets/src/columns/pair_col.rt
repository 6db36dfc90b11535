//! A column of the preprocessed or of the main trace.
ghost use Rattle.std.specs.Prelude.{◌≡◌, ◌↔◌, IsTrue, Some, length};
ghost use Rattle.air_gadgets.specs.Columns.{entry_of, IsWithin};

/// A column of one of the two traces.
#[derive(Clone, Copy, Debug)]
pub enum PairCol {
    /// The preprocessed column at this index.
    Preprocessed(usize),
    /// The main column at this index.
    Main(usize),
}

impl PairCol {
    /// Whether the column is below the width of its trace.
    pub fn in_range(self, preprocessed_width: usize, main_width: usize) -> bool
        ensures { IsTrue result ↔ IsWithin preprocessed_width main_width self }
    {
        match self {
            PairCol::Preprocessed(column) => column < preprocessed_width,
            PairCol::Main(column) => column < main_width,
        }
    }

    /// The column's entry in these two rows. The column must be below their lengths ([`in_range`](PairCol::in_range)).
    pub fn get<T: Copy>(self, preprocessed: &[T], main: &[T]) -> T
        requires { IsWithin (length preprocessed.now) (length main.now) self }
        ensures { entry_of self preprocessed.now main.now ≡ Some result }
    {
        match self {
            PairCol::Preprocessed(column) => preprocessed[column],
            PairCol::Main(column) => main[column],
        }
    }
}
