//! The two kinds of constraints.

/// Whether a constraint is over the base field or over the extension.
#[derive(Clone, Copy, Debug, PartialEq, Eq)]
pub enum ConstraintKind {
    Base,
    Extension,
}
