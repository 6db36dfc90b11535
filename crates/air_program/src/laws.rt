//! Laws of the answers, as contracts of functions.
ghost use Rattle.std.specs.Prelude.{◌≡◌, ℕ, List, Some};
ghost use Rattle.serde_json.specs.Data.{Data};
ghost use Rattle.air_core.specs.declared.errors.AirError.{AirError};
ghost use Rattle.air_audit.specs.declared.audit.Audit.{Audit};
ghost use Rattle.air_object.specs.Input.{input_fault};
ghost use Rattle.air_object.specs.declared.input.FlatInput.{FlatInput};
ghost use Rattle.air_program.specs.Explained.{ExplainsInput, ExplainedIn, NamesAlike};
ghost use Rattle.air_program.specs.FlatAnswer.{AuditsValue, AuditedIn};
ghost use Rattle.air_program.specs.Reasons.{input_refusal, AddsLine};
ghost use Rattle.air_program.specs.Refusals.{AnswersRefusal, AnswersReason, air_name};
ghost use Rattle.air_program.specs.Shown.{ShowsValue};

use air_field::PrimeField64;

/// `flat` and `explain` refuse the same objects with the same names; `explain` adds a line, the reason. If an object has a
/// fault, both answer its first one.
pub fn flat_and_explain_refuse_alike<F: PrimeField64>()
    ensures flat { (d : Data) (e : AirError) (status : ℕ) (text : List ℕ) →
        input_fault F.residues d ≡ Some e → AuditedIn F F.ORDER_U64 F.residues d status text →
        AnswersRefusal (air_name e) status text }
    ensures explain { (d : Data) (e : AirError) (status : ℕ) (text : List ℕ) →
        input_fault F.residues d ≡ Some e → ExplainedIn F F.ORDER_U64 F.residues d status text →
        AnswersReason (air_name e) (input_refusal F.residues d e) status text }
    ensures explained { (d : Data) (text : List ℕ) → AuditedIn F F.ORDER_U64 F.residues d 2 text →
        (more : List ℕ) × AddsLine text more × ExplainedIn F F.ORDER_U64 F.residues d 2 more }
    ensures audited { (d : Data) (more : List ℕ) → ExplainedIn F F.ORDER_U64 F.residues d 2 more →
        (text : List ℕ) × AddsLine text more × AuditedIn F F.ORDER_U64 F.residues d 2 text }
{}

/// `show` and `explain` speak of the same pool and the same roots of an object, and `%k` is the same expression for both.
pub fn show_and_explain_name_alike<F: PrimeField64>()
    ensures one_pool { (d : Data) (text : List ℕ) (input : FlatInput F) (audit : Audit F) →
        (shown : ShowsValue F.residues d text) → AuditsValue F.residues d input audit →
        (shown.pool ≡ input.constraints.pool) × (shown.roots ≡ input.constraints.roots.items) }
    ensures one_name { (d : Data) (text : List ℕ) (input : FlatInput F) (audit : Audit F) →
        (shown : ShowsValue F.residues d text) → AuditsValue F.residues d input audit →
        (explanation : List ℕ) → (explained : ExplainsInput F.residues input audit explanation) →
        NamesAlike shown.shows.names explained.names }
{}
