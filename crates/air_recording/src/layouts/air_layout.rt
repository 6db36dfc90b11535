//! Layouts of AIRs.
ghost use Rattle.std.specs.Prelude.{◌≡◌, OnOk, IfErr};
ghost use Rattle.air_recording.specs.Layouts.{air_layout, FitsAir, LayoutRefuses};

use air_builder::{AirError, BaseAir};

/// The number of entries of each kind in a symbolic builder; by default 0.
#[derive(Clone, Copy, Debug, Default, PartialEq, Eq)]
pub struct AirLayout {
    /// Columns of the preprocessed trace: [`BaseAir::preprocessed_width`].
    pub preprocessed_width: usize,
    /// Columns of the main trace: [`BaseAir::width`].
    pub main_width: usize,
    /// Public values: [`BaseAir::num_public_values`].
    pub num_public_values: usize,
    /// Columns of the permutation trace, over the extension.
    pub permutation_width: usize,
    /// Challenges that the permutation's constraints draw.
    pub num_permutation_challenges: usize,
    /// Values that the permutation argument exposes, such as the ends of its sums.
    pub num_permutation_values: usize,
    /// Periodic columns: [`BaseAir::num_periodic_columns`].
    pub num_periodic_columns: usize,
}

impl AirLayout {
    /// The layout that the AIR declares; the three permutation counts are 0.
    pub fn from_air<F: Copy, A: BaseAir<F>>(air: &A) -> Self
        ensures { result ≡ air_layout (A.declaration air.now) }
    {
        AirLayout {
            preprocessed_width: air.preprocessed_width(),
            main_width: air.width(),
            num_public_values: air.num_public_values(),
            permutation_width: 0,
            num_permutation_challenges: 0,
            num_permutation_values: 0,
            num_periodic_columns: air.num_periodic_columns(),
        }
    }

    /// Compares the layout's main width, then its public values, then its periodic columns with the AIR's. The error
    /// names the first that differs. Never allocates.
    ///
    /// # Correctness
    ///
    /// The preprocessed width isn't compared: prover and verifier take it from the committed trace, which may be wider
    /// than the AIR declares, or absent. A layout narrower than the columns that the constraints read makes the
    /// recording fail. A layout wider than the committed trace is for the caller to notice.
    pub fn validate_against_air<F: Copy, A: BaseAir<F>>(&self, air: &A) -> Result<(), AirError>
        ensures fits { OnOk result (FitsAir self.now (A.declaration air.now)) }
        ensures refused { IfErr result (LayoutRefuses self.now (A.declaration air.now)) }
    {
        let width = air.width();
        if self.main_width != width {
            return Err(AirError::LayoutMainWidth {
                layout: self.main_width,
                air: width,
            });
        }
        let public = air.num_public_values();
        if self.num_public_values != public {
            return Err(AirError::LayoutPublicValues {
                layout: self.num_public_values,
                air: public,
            });
        }
        let periodic = air.num_periodic_columns();
        if self.num_periodic_columns != periodic {
            return Err(AirError::LayoutPeriodicColumns {
                layout: self.num_periodic_columns,
                air: periodic,
            });
        }
        Ok(())
    }
}
