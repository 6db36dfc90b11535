//! Tests of the program over streams in memory, of the objects that it reads, and of the AIRs that it audits. Each line
//! of a table makes one public call and gives the expected answer.
#![tactic(auto)]

mod bench;
mod checks;
mod fibonacci;
mod flat_inputs;
mod runs;
mod streams;

use crate::bench::Program;
use air_field::BabyBear;
use test_lines::{Fault, Report, Table, Tables, Why, check_lines};

/// The tables of this layer, by their heads.
pub struct ProgramTables;

impl Tables for ProgramTables {
    fn check(
        rt: &HostRuntime,
        head: &str,
        table: &Table<'_>,
        report: &mut Report,
    ) -> Result<(), Fault> {
        match head {
            "the program" => check_lines::<Program<'_, BabyBear>>(rt, table, report),
            _ => Err(Fault::Unreadable(Why::NoSuchTable)),
        }
    }
}
