//! Windows that own their two rows.
ghost use Rattle.std.specs.Prelude.{◌≡◌, length, ⊤};

use crate::windows::access::WindowAccess;

/// Two rows of equal width, which may be zero.
#[derive(Drop)]
pub struct TwoRows<T> {
    current: Vec<T>,
    next: Vec<T>,
    ghost same_width: { length current.items ≡ length next.items },
}

impl<T: Copy> TwoRows<T> {
    ghost use Rattle.air_core.specs.WindowShapes.{current_of, next_of};

    /// The window of two rows, which must have equal width.
    pub fn new(current: Vec<T>, next: Vec<T>) -> Self
        requires { length current.items ≡ length next.items }
        ensures current { current_of result ≡ current.items }
        ensures next { next_of result ≡ next.items }
    {
        TwoRows { current, next }
    }
}

impl<T: Copy> WindowAccess<T> for TwoRows<T> {
    ghost is_window = { λ _. ⊤ };

    ghost current_row = { λ w. w.current.items };

    ghost next_row = { λ w. w.next.items };

    ghost equal_widths = { λ w _. w.same_width };

    fn current_slice(&self) -> &[T] {
        self.current.as_slice()
    }

    fn next_slice(&self) -> &[T] {
        self.next.as_slice()
    }
}
