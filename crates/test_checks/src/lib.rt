//! Tests of checks: whole traces, single rows, reports, labels, and AIRs given by expressions, as tables.
#![tactic(auto)]

mod assertions;
mod bench;
mod recorded;
mod reports;
mod rows;

use crate::bench::Checks;
use air_audit::{BabyBear, BinomialExtensionField};
use test_lines::{Fault, Report, Table, Tables, Why, check_lines};

/// The tables of this layer, by their heads.
pub struct CheckTables;

impl Tables for CheckTables {
    fn check(
        rt: &HostRuntime,
        head: &str,
        table: &Table<'_>,
        report: &mut Report,
    ) -> Result<(), Fault> {
        match head {
            "checks" => {
                check_lines::<Checks<'_, BabyBear, BinomialExtensionField>>(rt, table, report)
            }
            _ => Err(Fault::Unreadable(Why::NoSuchTable)),
        }
    }
}
