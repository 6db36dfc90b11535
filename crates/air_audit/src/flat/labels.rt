//! The labels of roots.
ghost use Rattle.std.specs.Prelude.{◌≡◌, ⊤};
ghost use Rattle.air_audit.specs.RootLabels.{root_label, RootSays};

use air_builder::Name;
use std::alloc::AllocError;

/// The label at a root's place; it is empty where there is none.
pub(crate) fn label_at(labels: &[String], root: usize) -> &str
    ensures { result.now ≡ root_label labels.now root }
{
    match labels.get(root) {
        Some(label) => label,
        None => "",
    }
}

/// The name of a root, which is its label.
#[derive(Clone, Copy, Drop)]
pub(crate) struct RootLabel<'a> {
    pub(crate) labels: &'a [String],
    pub(crate) root: usize,
}

impl<'a> Name for RootLabel<'a> {
    type Output = &'a str;

    ghost can_evaluate = { λ _. ⊤ };

    ghost displays = { λ name. RootSays name.labels.now name.root };

    fn evaluate(self) -> Result<&'a str, AllocError> {
        Ok(label_at(self.labels, self.root))
    }
}
