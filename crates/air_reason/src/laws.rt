//! That a reason is that of the first fault, as the contract of a function.
ghost use Rattle.std.specs.Prelude.{◌≡◌, Some, option_map};
ghost use Rattle.serde_json.specs.Data.{Data};
ghost use Rattle.air_json.specs.Faults.{air_fault};
ghost use Rattle.air_json.specs.declared.errors.FlatError.{FlatError};
ghost use Rattle.air_object.specs.Input.{input_fault};
ghost use Rattle.air_object.specs.Members.{labelled_constraints};
ghost use Rattle.air_reason.specs.Members.{input_reason, labelled_reason};

use air_field::PrimeField64;

/// A value has a reason exactly if it has a fault, and the reason's error is the first fault.
pub fn reasons_are_of_first_faults<F: PrimeField64>()
    ensures input { (d : Data) → option_map (λ r. r.error) (input_reason F.residues d) ≡
        input_fault F.residues d }
    ensures labelled { (d : Data) (f : FlatError) → (labelled_constraints F.residues).fault d f →
        option_map (λ r. r.error) (labelled_reason F.residues d) ≡ Some (air_fault f) }
{}
