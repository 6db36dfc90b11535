//! What a layer says about its tables.
ghost use Rattle.std.specs.Prelude.{◌≢◌, OnOk};

use crate::faults::Fault;
use crate::lines::Line;
use crate::report::Report;
use crate::tables::Table;
use std::alloc::Global;

/// The state on which the lines of a table are tried.
pub trait Bench<'a>: Sized + Drop {
    /// The state at the start of a table, and after each line `new`.
    fn new(alloc: Global) -> Self;

    /// Adds the answer of the line's call to `text`, and keeps it under the line's name.
    fn answer(&mut self, line: &Line<'a>, text: &mut String) -> Result<(), Fault>;

    /// Adds the state that must not change when a call runs out of memory, such as the values of the names.
    fn show_state(&self, text: &mut String) -> Result<(), Fault>;
}

/// The tables of a program.
pub trait Tables {
    /// Checks the lines of a table. `head` is the table's first line without `# `. A table without lines is an error.
    fn check(
        rt: &HostRuntime,
        head: &str,
        table: &Table<'_>,
        report: &mut Report,
    ) -> Result<(), Fault>
        ensures counted { OnOk result (report.new.lines ≢ report.old.lines) };
}
