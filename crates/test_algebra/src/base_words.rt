//! Calls of base pools only.

use crate::bench::{PoolBench, TableLeaf};
use crate::shown::Shown;
use air_field::{Field, RingError};
use air_symbolic::{BaseEntry, BaseLeaf, ExprId, SymbolicVariable};
use test_lines::words::{Number, count_of, element_of};
use test_lines::{Fault, Line, Names, Why};

// An entry without a row offset.
fn value_entry(word: &str) -> Result<BaseEntry, Fault> {
    match word {
        "Periodic" => Ok(BaseEntry::Periodic),
        "Public" => Ok(BaseEntry::Public),
        _ => Err(Fault::Unreadable(Why::NoSuchWord)),
    }
}

// An entry with a row offset.
fn window_entry(word: &str, offset: usize) -> Result<BaseEntry, Fault> {
    match word {
        "Main" => Ok(BaseEntry::Main { offset }),
        "Preprocessed" => Ok(BaseEntry::Preprocessed { offset }),
        _ => Err(Fault::Unreadable(Why::NoSuchWord)),
    }
}

// A base entry: `Main OFFSET`, `Preprocessed OFFSET`, `Periodic` or `Public`.
fn base_entry(words: &[&str]) -> Result<BaseEntry, Fault> {
    match words {
        [word] => value_entry(*word),
        [word, offset] => window_entry(*word, count_of(*offset)?),
        _ => Err(Fault::Unreadable(Why::NoSuchWord)),
    }
}

/// A base variable: an entry and an index.
pub fn base_variable<F: Field>(words: &[&str]) -> Result<SymbolicVariable<F>, Fault> {
    match words.split_last() {
        Some((index, entry)) => {
            let entry = base_entry(entry)?;
            Ok(SymbolicVariable::new(entry, count_of(*index)?))
        }
        None => Err(Fault::Unreadable(Why::NoSuchWord)),
    }
}

// A leaf named by one word.
fn selector<F: Field>(word: &str) -> Result<BaseLeaf<F>, Fault> {
    match word {
        "IsFirstRow" => Ok(BaseLeaf::IsFirstRow),
        "IsLastRow" => Ok(BaseLeaf::IsLastRow),
        "IsTransition" => Ok(BaseLeaf::IsTransition),
        _ => Err(Fault::Unreadable(Why::NoSuchWord)),
    }
}

/// A base leaf: a selector, `Constant NUMBER`, or a variable.
pub fn base_leaf<F: Field>(words: &[&str]) -> Result<BaseLeaf<F>, Fault> {
    match words {
        [word] => selector(*word),
        ["Constant", c] => Ok(BaseLeaf::Constant(element_of(*c)?)),
        _ => Ok(BaseLeaf::Variable(base_variable(words)?)),
    }
}

// Adds an entry.
fn show_entry(entry: BaseEntry, text: &mut String) -> Result<(), Fault> {
    match entry {
        BaseEntry::Main { offset } => write!(text, "Main {offset}")?,
        BaseEntry::Preprocessed { offset } => write!(text, "Preprocessed {offset}")?,
        BaseEntry::Periodic => text.push_str("Periodic")?,
        BaseEntry::Public => text.push_str("Public")?,
    }
    Ok(())
}

impl<F: Number> Shown for BaseLeaf<F> {
    fn number(c: F) -> u64 {
        c.number()
    }

    fn show(&self, _base: &Names<'_, ExprId<BaseLeaf<F>>>, text: &mut String) -> Result<(), Fault> {
        match self {
            BaseLeaf::Variable(v) => {
                show_entry(v.entry, text)?;
                let index = v.index;
                write!(text, " {index}")?;
            }
            BaseLeaf::IsFirstRow => text.push_str("IsFirstRow")?,
            BaseLeaf::IsLastRow => text.push_str("IsLastRow")?,
            BaseLeaf::IsTransition => text.push_str("IsTransition")?,
            BaseLeaf::Constant(c) => {
                let number = c.number();
                write!(text, "Constant {number}")?;
            }
        }
        Ok(())
    }
}

impl<'a, F: Number> PoolBench<'a, BaseLeaf<F>> {
    fn push_variable(&mut self, variable: &[&str]) -> Result<ExprId<BaseLeaf<F>>, Fault> {
        let variable = base_variable(variable)?;
        Ok(self.pool.variable(variable)?)
    }

    fn insert_leaf(
        &mut self,
        call: &str,
        leaf: BaseLeaf<F>,
    ) -> Result<ExprId<BaseLeaf<F>>, RingError> {
        match call {
            "leaf" => self.pool.leaf(leaf),
            _ => self.pool.leaf_expr(leaf),
        }
    }

    fn push_leaf(&mut self, call: &str, leaf: &[&str]) -> Result<ExprId<BaseLeaf<F>>, Fault> {
        let leaf = base_leaf(leaf)?;
        Ok(self.insert_leaf(call, leaf)?)
    }
}

impl<F: Number> TableLeaf for BaseLeaf<F> {
    fn make_own<'a>(
        bench: &mut PoolBench<'a, Self>,
        call: &str,
        operands: &[&str],
    ) -> Result<ExprId<Self>, Fault> {
        match call {
            "variable" => bench.push_variable(operands),
            "leaf" | "leaf_expr" => bench.push_leaf(call, operands),
            _ => bench.make_common(call, operands),
        }
    }

    fn is_under(_call: &str) -> bool {
        false
    }

    fn answer_under<'a>(
        _bench: &mut PoolBench<'a, Self>,
        _line: &Line<'a>,
        _call: &str,
        _operands: &[&str],
        _text: &mut String,
    ) -> Result<(), Fault> {
        Err(Fault::Unreadable(Why::NoSuchCall))
    }

    fn show_under(_bench: &PoolBench<'_, Self>, _text: &mut String) -> Result<(), Fault> {
        Ok(())
    }
}
