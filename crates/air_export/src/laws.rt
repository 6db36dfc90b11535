//! What an audit of an exported AIR says of the AIR, as contracts of functions.
ghost use Rattle.std.specs.Prelude.{◌≡◌, ℕ, List};
ghost use Rattle.air_field.specs.Grid.{Grid};
ghost use Rattle.air_field.specs.Term.{Term};
ghost use Rattle.air_builder.specs.Assertion.{Assertion};
ghost use Rattle.air_builder.specs.Declaration.{Declaration};
ghost use Rattle.air_audit.specs.Theorem.{instance, value_on, nonzero_places, violated_places, RecordConstraints};
ghost use Rattle.air_export.specs.Exports.{IsExportOf, RecordsConstraint};

use air_field::SelfExtension;

/// The audit theorem carries over, word by word: on every trace the constraints of the exported AIR have the values of
/// this AIR's; its audit lists the same failures; and terms that record its constraints record this AIR's.
pub fn exports_are_audited_alike<F: SelfExtension>()
    ensures values { (written air : Declaration F) (main : Grid F) (public : List F) (i : ℕ)
        (u t : Assertion F) → IsExportOf F.ring written air → RecordsConstraint F.ring u t →
        value_on F.ring (instance written main public) i u
        ≡ value_on F.ring (instance air main public) i t }
    ensures failures { (written air : Declaration F) (main : Grid F) (public : List F) →
        IsExportOf F.ring written air → nonzero_places F.ring F.eq (instance written main public)
        ≡ nonzero_places F.ring F.eq (instance air main public) }
    ensures cells { (written air : Declaration F) (main : Grid F) (public : List F) →
        IsExportOf F.ring written air → violated_places F.ring F.eq (instance written main public)
        ≡ violated_places F.ring F.eq (instance air main public) }
    ensures recorded { (written air : Declaration F) (base ext : List (Term F)) →
        IsExportOf F.ring written air → RecordConstraints F.ring written base ext →
        RecordConstraints F.ring air base ext }
{}
