//! Tests of fields and their rings, of pools and of lists of nodes. Each line of a table makes one public call and
//! gives the expected answer.
#![tactic(auto)]

ghost use Rattle.std.specs.Prelude.{◌≢◌, OnOk};

mod base_words;
mod bench;
mod calls;
mod ext_words;
mod fields;
mod known_leaves;
mod rings;
mod shown;
mod spellings;

use crate::bench::{PoolBench, TableLeaf};
use crate::calls::Calls;
use air_field::{
    BabyBear, BinomialExtensionField, Goldilocks, KoalaBear, KoalaBearExtension, Mersenne31,
};
use air_json::WireLeaf;
use air_symbolic::{BaseLeaf, ExtLeaf};
use test_lines::{Fault, Report, Table, Tables, Why, check_lines};

// Checks a table of pools with these leaves. (Generic, since for concrete leaves each call takes much longer to prove.)
fn check_pools<'a, A: TableLeaf + WireLeaf + 'a>(
    rt: &HostRuntime,
    table: &Table<'a>,
    report: &mut Report,
) -> Result<(), Fault>
    ensures counted { OnOk result (report.new.lines ≢ report.old.lines) }
{
    check_lines::<PoolBench<'a, A>>(rt, table, report)
}

/// The tables of pools and of lists of nodes, by their heads.
pub struct PoolTables;

impl Tables for PoolTables {
    fn check(
        rt: &HostRuntime,
        head: &str,
        table: &Table<'_>,
        report: &mut Report,
    ) -> Result<(), Fault> {
        match head {
            "base pools" => check_pools::<BaseLeaf<BabyBear>>(rt, table, report),
            "extension pools" => {
                check_pools::<ExtLeaf<BabyBear, BinomialExtensionField>>(rt, table, report)
            }
            _ => Err(Fault::Unreadable(Why::NoSuchTable)),
        }
    }
}

/// The tables of a field, its extension and the rings of both. The head names the field.
pub struct FieldTables;

impl Tables for FieldTables {
    fn check(
        rt: &HostRuntime,
        head: &str,
        table: &Table<'_>,
        report: &mut Report,
    ) -> Result<(), Fault> {
        match head {
            "BabyBear" => check_lines::<Calls<BabyBear, BinomialExtensionField>>(rt, table, report),
            "KoalaBear" => check_lines::<Calls<KoalaBear, KoalaBearExtension>>(rt, table, report),
            "Mersenne31" => check_lines::<Calls<Mersenne31, Mersenne31>>(rt, table, report),
            "Goldilocks" => check_lines::<Calls<Goldilocks, Goldilocks>>(rt, table, report),
            _ => Err(Fault::Unreadable(Why::NoSuchTable)),
        }
    }
}
