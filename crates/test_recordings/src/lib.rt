//! Tests of recordings, layouts, inferred degrees, audits and folds. Each line of a table makes one public call and
//! gives the expected answer.
#![tactic(auto)]

mod audits;
mod bench;
mod expressions;
mod filters;
mod folds;
mod kinds;
mod layouts;
mod lent;
mod recordings;

use crate::bench::{AirBench, Alone};
use air_field::{BabyBear, BinomialExtensionField};
use test_lines::{Fault, Report, Table, Tables, Why, check_lines};

type Element = BinomialExtensionField;

/// The tables of this layer, by their heads.
pub struct RecordingTables;

impl Tables for RecordingTables {
    fn check(
        rt: &HostRuntime,
        head: &str,
        table: &Table<'_>,
        report: &mut Report,
    ) -> Result<(), Fault> {
        match head {
            "airs" => check_lines::<AirBench<'_, BabyBear, Element>>(rt, table, report),
            "calls without an AIR" => check_lines::<Alone<BabyBear, Element>>(rt, table, report),
            _ => Err(Fault::Unreadable(Why::NoSuchTable)),
        }
    }
}
