//! Runs the tables. The folder of a table names the layer whose calls its lines make.
#![tactic(auto)]

use std::process::ExitCode;
use test_algebra::{FieldTables, PoolTables};
use test_builders::BuilderTables;
use test_checks::CheckTables;
use test_lines::{Fault, Report, Table, Tables, Why};
use test_program::ProgramTables;
use test_recordings::RecordingTables;

struct AllTables;

impl Tables for AllTables {
    fn check(
        rt: &HostRuntime,
        head: &str,
        table: &Table<'_>,
        report: &mut Report,
    ) -> Result<(), Fault> {
        match table.name.split_once('/') {
            Some(("fields", _)) => FieldTables::check(rt, head, table, report),
            Some(("pools", _)) => PoolTables::check(rt, head, table, report),
            Some(("builders", _)) => BuilderTables::check(rt, head, table, report),
            Some(("recordings", _)) => RecordingTables::check(rt, head, table, report),
            Some(("checks", _)) => CheckTables::check(rt, head, table, report),
            Some(("runs", _)) => ProgramTables::check(rt, head, table, report),
            _ => Err(Fault::Unreadable(Why::NoSuchTable)),
        }
    }
}

/// Checks the tables that its arguments name.
fn main(rt: HostRuntime) -> ExitCode {
    test_lines::run::<AllTables>(&rt)
}
