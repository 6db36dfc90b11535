//! Counts of the lines.
ghost use Rattle.std.specs.Prelude.{◌≡◌, false, if◌then◌else◌};
ghost use Rattle.test_lines.specs.Reports.{one_more};

use crate::faults::Fault;

/// The number of lines, and how many of them differ.
#[derive(Drop)]
pub struct Report {
    pub lines: usize,
    pub differ: usize,
    /// The number of the current line, from 1.
    pub at: usize,
    /// Whether to check the state after a call that ran out of memory, and to make the call again.
    pub again: bool,
    /// Whether the current line's call ran out of memory and was made again.
    pub refused: bool,
}

impl Report {
    /// A report in which nothing is counted.
    pub fn new(again: bool) -> Self
        ensures lines { result.lines ≡ 0 }
        ensures differ { result.differ ≡ 0 }
        ensures again { result.again ≡ again }
        ensures refused { result.refused ≡ false }
    {
        Report {
            lines: 0,
            differ: 0,
            at: 0,
            again,
            refused: false,
        }
    }

    /// Counts a line, even if printing fails. Prints it if it differs, or if its call was made again. Then resets
    /// `refused`.
    pub fn count(
        &mut self,
        rt: &impl Print,
        table: &str,
        line: &str,
        right: bool,
        found: &str,
    ) -> Result<(), Fault>
        ensures lines { self.new.lines ≡ one_more self.old.lines }
        ensures differ { self.new.differ
            ≡ (if right then self.old.differ else one_more self.old.differ) }
        ensures again { self.new.again ≡ self.old.again }
        ensures refused { self.new.refused ≡ false }
    {
        self.lines = self.lines.saturating_add(1);
        if !right {
            self.differ = self.differ.saturating_add(1);
        }
        let at = self.at;
        if self.refused {
            self.refused = false;
            println!(rt; "{table}:{at}: refused, and made again")?;
        }
        if !right {
            println!(rt; "{table}:{at}: {line}")?;
            println!(rt; "    found: {found}")?;
        }
        Ok(())
    }
}
