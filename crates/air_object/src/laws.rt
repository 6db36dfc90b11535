//! A law of the reading, as the contract of a function.
ghost use Rattle.std.specs.Prelude.{◌≡◌, ◌↔◌, ℕ, List, Some};
ghost use Rattle.serde_json.specs.Data.{Data};
ghost use Rattle.air_core.specs.declared.errors.AirError.{AirError};
ghost use Rattle.air_symbolic.specs.ExtLeaves.{BaseNodes};
ghost use Rattle.air_object.specs.Gained.{AreRootsOf};
ghost use Rattle.air_object.specs.Members.{Made, members};
ghost use Rattle.air_object.specs.Input.{SpellsInput, HasInputFault, input_fault};
ghost use Rattle.air_object.specs.declared.input.FlatInput.{FlatInput};

use air_field::PrimeField64;

/// A value spells the members of at most one input, has at most one pool with at most one list of roots, and at most one
/// first fault. It never has both an input and a fault.
pub fn inputs_are_read_one_way<F: PrimeField64>()
    ensures one_value { (d : Data) (m n : Made F) →
        (members F.residues).spells d m → (members F.residues).spells d n → m ≡ n }
    ensures one_pool { (d : Data) (p q : BaseNodes F) (is js : List ℕ) →
        AreRootsOf F.residues d p is → AreRootsOf F.residues d q js → (p ≡ q) × (is ≡ js) }
    ensures no_fault { (d : Data) (input : FlatInput F) (e : AirError) →
        SpellsInput F.residues d input → HasInputFault F.residues d e → ⊥ }
    ensures one_fault { (d : Data) (e f : AirError) → HasInputFault F.residues d e →
        HasInputFault F.residues d f → e ≡ f }
    ensures first_fault { (d : Data) (e : AirError) → HasInputFault F.residues d e ↔
        (input_fault F.residues d ≡ Some e) }
{}
