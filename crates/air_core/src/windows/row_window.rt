//! Windows over two borrowed rows.
ghost use Rattle.std.specs.Prelude.{◌≡◌, length, ⊤};

use crate::errors::AirError;
use crate::windows::access::WindowAccess;
use air_field::RowMajorMatrixView;
use std::alloc::AllocError;

/// Two borrowed rows.
#[derive(Debug)]
pub struct RowWindow<'a, T> {
    current: &'a [T],
    next: &'a [T],
    ghost same_width: { length current.now ≡ length next.now },
}

impl<'a, T> Copy for RowWindow<'a, T> {}

impl<'a, T> Clone for RowWindow<'a, T> {
    ghost is_clone = { λ x y. y ≡ x };

    ghost is_infallible = { λ _. ⊤ };

    fn clone(&self) -> Result<Self, AllocError> {
        Ok(*self)
    }
}

impl<'a, T: Copy> RowWindow<'a, T> {
    ghost use Rattle.std.specs.Prelude.{take, drop, ◌*◌, IfOk, OnOk, IfErr};
    ghost use Rattle.air_core.specs.WindowShapes.{IsNoWindow};

    /// The window of a view of two rows. Fails with `WindowShape` for a view of any other shape. Allocates nothing.
    pub fn from_view(view: &RowMajorMatrixView<'a, T>) -> Result<Self, AirError>
        ensures shape { OnOk result (length view.now.values.now ≡ 2 * view.now.width) }
        ensures current { IfOk result (λ w. ⟦<RowWindow<'a, T> as WindowAccess<T>>⟧.current_row w
            ≡ take view.now.width view.now.values.now) }
        ensures next { IfOk result (λ w. ⟦<RowWindow<'a, T> as WindowAccess<T>>⟧.next_row w
            ≡ drop view.now.width view.now.values.now) }
        ensures refused { IfErr result (IsNoWindow (length view.now.values.now) view.now.width) }
    {
        let len = view.values.len();
        let width = view.width;
        if len % 2 != 0 || len / 2 != width {
            return Err(AirError::WindowShape { len, width });
        }
        Ok(RowWindow {
            current: &view.values[..width],
            next: &view.values[width..],
        })
    }

    /// The window of two rows, which must have equal width.
    pub fn from_two_rows(current: &'a [T], next: &'a [T]) -> Self
        requires { length current.now ≡ length next.now }
        ensures current { ⟦<RowWindow<'a, T> as WindowAccess<T>>⟧.current_row result ≡ current.now }
        ensures next { ⟦<RowWindow<'a, T> as WindowAccess<T>>⟧.next_row result ≡ next.now }
    {
        RowWindow { current, next }
    }
}

impl<'a, T: Copy> WindowAccess<T> for RowWindow<'a, T> {
    ghost is_window = { λ _. ⊤ };

    ghost current_row = { λ w. w.current.now };

    ghost next_row = { λ w. w.next.now };

    ghost equal_widths = { λ w _. w.same_width };

    fn current_slice(&self) -> &[T] {
        self.current
    }

    fn next_slice(&self) -> &[T] {
        self.next
    }
}
