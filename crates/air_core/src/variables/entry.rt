//! The entries that a base variable can name.

/// The entry of a base variable. An offset counts rows from the current one; a window has the offsets 0 and 1.
#[derive(Clone, Copy, Debug, PartialEq, Eq, PartialOrd, Ord, Hash)]
pub enum BaseEntry {
    /// A column of the preprocessed trace.
    Preprocessed { offset: usize },
    /// A column of the main trace.
    Main { offset: usize },
    /// A periodic column.
    Periodic,
    /// A public value.
    Public,
}
