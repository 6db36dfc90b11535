//! What exact reports say, as the contract of a function: call it to use the fact.
ghost use Rattle.air_chains.specs.Rows.{EmptyReportsHold, HeldRowsPass, SatisfiedRowsHold};

use air_field::Field;

/// If an exact report without a cap lists nothing, each declared constraint is zero on each row (`rows`); and so it is if
/// `check_constraints` answers Ok (`satisfied`). If each is zero, and no boundary value is violated, every exact report
/// lists nothing, with any cap (`pass`). The report of a check is exact, and so is that of an audit, by the contracts of
/// `check_all_constraints` and `audit_air_with_cap`.
pub fn empty_reports_hold<F: Field>()
    ensures rows { EmptyReportsHold F.ring F.eq }
    ensures satisfied { SatisfiedRowsHold F.ring F.eq }
    ensures pass { HeldRowsPass F.ring F.eq }
{}
