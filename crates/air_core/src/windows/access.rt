//! Access to a window's two rows.
ghost use Rattle.std.specs.Prelude.{◌≡◌, ℕ, List, length, slice_get};

/// A current and a next row of equal width. They can be read only from a value that is a window: from a matrix only if
/// it has two rows.
pub trait WindowAccess<T: Copy> {
    /// The value is a window.
    ghost is_window: { Self → Type 0 };

    ghost current_row: { Self → List T };

    ghost next_row: { Self → List T };

    /// The current row.
    fn current_slice(&self) -> &[T]
        requires { is_window self.now }
        ensures { result.now ≡ current_row self.now };

    /// The next row.
    fn next_slice(&self) -> &[T]
        requires { is_window self.now }
        ensures { result.now ≡ next_row self.now };

    /// The element of the current row in this column, or `None` past the width.
    fn current(&self, column: usize) -> Option<T>
        requires { is_window self.now }
        ensures { result ≡ slice_get (current_row self.now) column }
    {
        self.current_slice().get(column).copied()
    }

    /// The element of the next row in this column, or `None` past the width.
    fn next(&self, column: usize) -> Option<T>
        requires { is_window self.now }
        ensures { result ≡ slice_get (next_row self.now) column }
    {
        self.next_slice().get(column).copied()
    }

    // the two rows of a window have equal width
    ghost equal_widths: { (w : Self) → is_window w → length (current_row w) ≡ length (next_row w) };
}
