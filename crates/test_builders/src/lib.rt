//! Tests of matrices, windows, boundary values, names, columns, bits, word gadgets, assertions and filters. Each line
//! of a table makes public calls and gives the expected answer.
#![tactic(auto)]

mod airs;
mod bits;
mod cells;
mod columns;
mod hints;
mod labels;
mod matrices;
mod recordings;
mod rows;
mod trees;
mod values;
mod windows;
mod words;

use crate::recordings::Recordings;
use crate::rows::Rows;
use crate::values::Values;
use air_field::{BabyBear, BinomialExtensionField};
use test_lines::{Fault, Report, Table, Tables, Why, check_lines};

type Element = BinomialExtensionField;

/// The tables of this layer, by their heads.
pub struct BuilderTables;

impl Tables for BuilderTables {
    fn check(
        rt: &HostRuntime,
        head: &str,
        table: &Table<'_>,
        report: &mut Report,
    ) -> Result<(), Fault> {
        match head {
            "values" => check_lines::<Values<BabyBear>>(rt, table, report),
            "recordings" => check_lines::<Recordings<BabyBear, Element>>(rt, table, report),
            "rows" => check_lines::<Rows<BabyBear, Element>>(rt, table, report),
            _ => Err(Fault::Unreadable(Why::NoSuchTable)),
        }
    }
}
