//! The entries that an extension variable can name.

/// The entry of an extension variable. An offset counts rows from the current one; a window has the offsets 0 and 1.
#[derive(Clone, Copy, Debug, PartialEq, Eq, PartialOrd, Ord, Hash)]
pub enum ExtEntry {
    /// A column of the permutation trace.
    Permutation { offset: usize },
    /// A random challenge.
    Challenge,
    /// A value that the permutation argument exposes.
    PermutationValue,
}
