//! Calls of extension pools only, and calls of the base pool under one.
ghost use Rattle.std.specs.Prelude.{◌<◌, IfOk};
ghost use Rattle.air_symbolic.specs.Pools.{size};

use crate::base_words::base_leaf;
use crate::bench::{PoolBench, TableLeaf};
use crate::shown::{Shown, show_all, show_expression, show_operand};
use air_field::{ExtensionField, Field, RingError};
use air_symbolic::{BaseLeaf, ExprId, ExtEntry, ExtLeaf, SymbolicVariableExt};
use test_lines::words::{Number, count_of, extension_of, show_elements};
use test_lines::{Fault, Line, Names, Why};

// An entry without a row offset.
fn value_entry(word: &str) -> Result<ExtEntry, Fault> {
    match word {
        "Challenge" => Ok(ExtEntry::Challenge),
        "PermutationValue" => Ok(ExtEntry::PermutationValue),
        _ => Err(Fault::Unreadable(Why::NoSuchWord)),
    }
}

// An extension entry: `Permutation OFFSET`, `Challenge` or `PermutationValue`.
fn ext_entry(words: &[&str]) -> Result<ExtEntry, Fault> {
    match words {
        [word] => value_entry(*word),
        ["Permutation", offset] => {
            let offset = count_of(*offset)?;
            Ok(ExtEntry::Permutation { offset })
        }
        _ => Err(Fault::Unreadable(Why::NoSuchWord)),
    }
}

/// An extension variable: an entry and an index.
pub fn ext_variable<F: Field, EF: ExtensionField<F>>(
    words: &[&str],
) -> Result<SymbolicVariableExt<F, EF>, Fault> {
    match words.split_last() {
        Some((index, entry)) => {
            let entry = ext_entry(entry)?;
            Ok(SymbolicVariableExt::new(entry, count_of(*index)?))
        }
        None => Err(Fault::Unreadable(Why::NoSuchWord)),
    }
}

// Adds an entry.
fn show_entry(entry: ExtEntry, text: &mut String) -> Result<(), Fault> {
    match entry {
        ExtEntry::Permutation { offset } => write!(text, "Permutation {offset}")?,
        ExtEntry::Challenge => text.push_str("Challenge")?,
        ExtEntry::PermutationValue => text.push_str("PermutationValue")?,
    }
    Ok(())
}

impl<'a, F: Number, EF: ExtensionField<F>> PoolBench<'a, ExtLeaf<F, EF>> {
    // The expression of a name in the base pool.
    fn base_at(&self, name: &str) -> Result<ExprId<BaseLeaf<F>>, Fault>
        ensures { IfOk result (λ x. x < size self.now.base) }
    {
        let x = self.base_names.get(name)?;
        if self.pool.base().contains(x) {
            Ok(x)
        } else {
            Err(Fault::Unreadable(Why::OtherPool))
        }
    }

    fn push_base_leaf(&mut self, leaf: BaseLeaf<F>) -> Result<ExprId<BaseLeaf<F>>, RingError> {
        self.pool.base_mut().leaf_expr(leaf)
    }

    fn push_base_sum(
        &mut self,
        x: ExprId<BaseLeaf<F>>,
        y: ExprId<BaseLeaf<F>>,
    ) -> Result<ExprId<BaseLeaf<F>>, RingError>
        requires x_in { x < size self.old.base }
        requires y_in { y < size self.old.base }
    {
        self.pool.base_mut().add(x, y)
    }

    // Adds the text of an expression in the base pool, and gives it the line's name.
    fn keep_base(
        &mut self,
        line: &Line<'a>,
        x: ExprId<BaseLeaf<F>>,
        text: &mut String,
    ) -> Result<(), Fault> {
        show_expression(
            self.pool.base(),
            &self.base_names,
            &self.base_names,
            x,
            text,
        )?;
        match line.name {
            Some(name) => self.base_names.bind(name, x, line.times.is_some()),
            None => Ok(()),
        }
    }

    fn base_leaf_expr(&mut self, leaf: &[&str]) -> Result<ExprId<BaseLeaf<F>>, Fault> {
        let leaf = base_leaf(leaf)?;
        Ok(self.push_base_leaf(leaf)?)
    }

    fn base_sum(&mut self, operands: &[&str]) -> Result<ExprId<BaseLeaf<F>>, Fault> {
        let [x, y] = operands else {
            return Err(Fault::Unreadable(Why::NoSuchCall));
        };
        let x = self.base_at(*x)?;
        let y = self.base_at(*y)?;
        Ok(self.push_base_sum(x, y)?)
    }

    // The expression in the base pool that a call makes.
    fn made_base(&mut self, call: &str, operands: &[&str]) -> Result<ExprId<BaseLeaf<F>>, Fault> {
        match call {
            "leaf_expr" => self.base_leaf_expr(operands),
            "add" => self.base_sum(operands),
            _ => Err(Fault::Unreadable(Why::NoSuchCall)),
        }
    }

    fn make_base(
        &mut self,
        line: &Line<'a>,
        call: &str,
        operands: &[&str],
        text: &mut String,
    ) -> Result<(), Fault> {
        let x = self.made_base(call, operands)?;
        self.keep_base(line, x, text)
    }

    fn show_base_len(&self, text: &mut String) -> Result<(), Fault> {
        let count = self.pool.base().len();
        write!(text, "{count}")?;
        Ok(())
    }

    // Answers a call of the base pool.
    fn answer_base(
        &mut self,
        line: &Line<'a>,
        words: &[&str],
        text: &mut String,
    ) -> Result<(), Fault> {
        match words {
            ["len"] if line.name.is_none() => self.show_base_len(text),
            [call, operands @ ..] => self.make_base(line, *call, operands, text),
            [] => Err(Fault::Unreadable(Why::NoSuchCall)),
        }
    }

    // Adds the text of the expression in the base pool, or `None`, and gives it the line's name.
    fn keep_found(
        &mut self,
        line: &Line<'a>,
        found: Option<ExprId<BaseLeaf<F>>>,
        text: &mut String,
    ) -> Result<(), Fault> {
        match found {
            Some(x) => self.keep_base(line, x, text),
            None if line.name.is_some() => Err(Fault::Unreadable(Why::MakesNothing)),
            None => Ok(text.push_str("None")?),
        }
    }

    fn answer_to_base(
        &mut self,
        line: &Line<'a>,
        operands: &[&str],
        text: &mut String,
    ) -> Result<(), Fault> {
        let x = self.only_operand(operands)?;
        let found = self.pool.to_base(x)?;
        self.keep_found(line, found, text)
    }

    fn push_variable(&mut self, variable: &[&str]) -> Result<ExprId<ExtLeaf<F, EF>>, Fault> {
        let variable = ext_variable(variable)?;
        Ok(self.pool.variable(variable)?)
    }

    fn push_constant(&mut self, coefficients: &[&str]) -> Result<ExprId<ExtLeaf<F, EF>>, Fault> {
        let c = extension_of(self.names.alloc(), coefficients)?;
        Ok(self.pool.ext_constant(c)?)
    }

    fn lift_base(&mut self, operands: &[&str]) -> Result<ExprId<ExtLeaf<F, EF>>, Fault> {
        let [x] = operands else {
            return Err(Fault::Unreadable(Why::NoSuchCall));
        };
        let x = self.base_at(*x)?;
        Ok(self.pool.lift(x)?)
    }
}

impl<F: Number, EF: ExtensionField<F>> Shown for ExtLeaf<F, EF> {
    fn number(c: F) -> u64 {
        c.number()
    }

    fn show(&self, base: &Names<'_, ExprId<BaseLeaf<F>>>, text: &mut String) -> Result<(), Fault> {
        match self {
            ExtLeaf::Base(x) => {
                text.push_str("Base ")?;
                show_operand(base, *x, text)
            }
            ExtLeaf::ExtVariable(v) => {
                show_entry(v.entry, text)?;
                let index = v.index;
                write!(text, " {index}")?;
                Ok(())
            }
            ExtLeaf::ExtConstant(c) => {
                text.push_str("ExtConstant ")?;
                show_elements(c.as_basis_coefficients_slice(), text)
            }
        }
    }
}

impl<F: Number, EF: ExtensionField<F>> TableLeaf for ExtLeaf<F, EF> {
    fn make_own<'a>(
        bench: &mut PoolBench<'a, Self>,
        call: &str,
        operands: &[&str],
    ) -> Result<ExprId<Self>, Fault> {
        match call {
            "variable" => bench.push_variable(operands),
            "ext_constant" => bench.push_constant(operands),
            "lift" => bench.lift_base(operands),
            _ => bench.make_common(call, operands),
        }
    }

    fn is_under(call: &str) -> bool {
        call == "base" || call == "to_base"
    }

    fn answer_under<'a>(
        bench: &mut PoolBench<'a, Self>,
        line: &Line<'a>,
        call: &str,
        operands: &[&str],
        text: &mut String,
    ) -> Result<(), Fault> {
        match call {
            "base" => bench.answer_base(line, operands, text),
            _ => bench.answer_to_base(line, operands, text),
        }
    }

    fn show_under(bench: &PoolBench<'_, Self>, text: &mut String) -> Result<(), Fault> {
        show_all(
            bench.pool.base(),
            &bench.base_names,
            &bench.base_names,
            text,
        )
    }
}
