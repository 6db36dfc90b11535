//! Whether a trace has the columns and public values that its AIR declares.
ghost use Rattle.std.specs.Prelude.{OnOk, IfErr};
ghost use Rattle.air_audit.specs.Theorem.{instance};
ghost use Rattle.air_audit.specs.DeclaredShape.{HasDeclaredShape, ShapeRefuses};

use air_builder::BaseAir;
use air_field::RowMajorMatrix;
use thiserror::Error;

/// Why a trace hasn't the shape that its AIR declares.
#[derive(Clone, Copy, Debug, PartialEq, Eq, Error)]
pub enum ShapeError {
    /// The trace's number of columns isn't the AIR's.
    #[error("the trace has {trace} columns, the AIR declares {air}")]
    MainWidth { trace: usize, air: usize },
    /// The number of public values isn't the AIR's.
    #[error("{given} public values are given, the AIR declares {air}")]
    PublicValues { given: usize, air: usize },
}

/// Compares the trace's number of columns, then the number of public values, with what the AIR declares. The error names
/// the first that differs. Never allocates.
///
/// An audit doesn't compare them: it accepts a trace with more columns, or more public values, than the AIR declares. A
/// prover commits to just the declared columns, so call this before an audit that is to speak of what is proved. The
/// preprocessed trace is the AIR's own, so it always has the declared width. Heights aren't compared here: the audit
/// compares them.
pub fn has_declared_shape<F: Copy, A: BaseAir<F>>(
    air: &A,
    main: &RowMajorMatrix<F>,
    public_values: &[F],
) -> Result<(), ShapeError>
    ensures shape { OnOk result (HasDeclaredShape
        (instance (A.declaration air.now) main.now public_values.now)) }
    ensures refused { IfErr result (ShapeRefuses
        (instance (A.declaration air.now) main.now public_values.now)) }
{
    let (trace, width) = (main.width(), air.width());
    if trace != width {
        return Err(ShapeError::MainWidth { trace, air: width });
    }
    let (given, declared) = (public_values.len(), air.num_public_values());
    if given != declared {
        return Err(ShapeError::PublicValues {
            given,
            air: declared,
        });
    }
    Ok(())
}
