//! Parsing a whole input.

ghost use Rattle.std.specs.Prelude.{◌≡◌, ◌<◌, ◌%◌, None, Some, ◌+◌, length, vec_len, IfOk, IfErr, OnOk, IsErrOf};
ghost use Rattle.std.specs.Str.Lines.{lines};
ghost use Rattle.air_program.specs.Grammar.{numbers_of_line, rows_of_lines, parse};
ghost use Rattle.air_program.specs.Parsing.{element_values, onto, IsParseRefusal, PushesRow};

use crate::input::number::number;
use crate::input::pieces::{next_field, next_line};
use crate::refusals::Refusal;
use air_field::BabyBear;
use std::alloc::Global;

/// Appends the numbers of a line, and answers how many there are.
#[tactic(auto, using(crate::proofs::Numbers::next_number))]
fn push_numbers(numbers: &mut Vec<BabyBear>, line: &[u8]) -> Result<usize, Refusal>
    ensures numbers { OnOk result (onto (element_values numbers.old.items)
        (numbers_of_line line.now) ≡ Some (element_values numbers.new.items)) }
    ensures count { IfOk result (λ count. vec_len numbers.new ≡ vec_len numbers.old + count) }
    ensures syntax { IsErrOf result Refusal.Syntax → numbers_of_line line.now ≡ None }
    ensures refused { IfErr result IsParseRefusal }
{
    let before = numbers.len();
    let mut rest = line;
    'fields: while let Some((field, after)) = next_field(rest) {
        let Some(number) = number(field) else {
            return Err(Refusal::Syntax);
        };
        numbers.push(BabyBear::new(number))?;
        rest = after;
    }
    Ok(numbers.len() - before)
}

/// Appends the numbers of the next line that has any, and answers how many there are: 0 if no such line is left.
#[tactic(auto, using(crate::proofs::Rows::row_taken, crate::proofs::Rows::line_skipped, crate::proofs::Rows::bad_line))]
fn push_row(numbers: &mut Vec<BabyBear>, rest: &mut &[u8]) -> Result<usize, Refusal>
    ensures ok { IfOk result (λ count. PushesRow (element_values numbers.old.items)
        (element_values numbers.new.items) count (rows_of_lines (lines rest.old.now))
        (rows_of_lines (lines rest.new.now))) }
    ensures shorter { IfOk result (λ count. 0 < count → length (lines rest.new.now) < length
        (lines rest.old.now)) }
    ensures syntax { IsErrOf result Refusal.Syntax → rows_of_lines (lines rest.old.now) ≡ None }
    ensures refused { IfErr result IsParseRefusal }
{
    'lines: while let Some((line, after)) = next_line(*rest) {
        *rest = after;
        let count = push_numbers(numbers, line)?;
        if count > 0 {
            return Ok(count);
        }
    }
    Ok(0)
}

/// Three public values, and the values of the trace row after row.
#[derive(Drop)]
pub struct Input {
    pub public_values: Vec<BabyBear>,
    pub values: Vec<BabyBear>,
}

/// Parses the bytes.
#[tactic(auto, unfolding(crate::specs::Grammar::parse))]
pub fn parse(alloc: Global, bytes: &[u8]) -> Result<Input, Refusal>
    ensures ok { IfOk result (λ input. parse bytes.now ≡ Some
        (element_values input.public_values.items, element_values input.values.items)) }
    ensures three { IfOk result (λ input. vec_len input.public_values ≡ 3) }
    ensures whole_rows { IfOk result (λ input. vec_len input.values % 2 ≡ 0) }
    ensures syntax { IsErrOf result Refusal.Syntax → parse bytes.now ≡ None }
    ensures refused { IfErr result IsParseRefusal }
{
    let mut rest = bytes;
    let mut public_values = Vec::new(alloc);
    if push_row(&mut public_values, &mut rest)? != 3 {
        return Err(Refusal::Syntax);
    }
    let mut values = Vec::new(alloc);
    'rows: loop {
        match push_row(&mut values, &mut rest)? {
            0 => {
                return Ok(Input {
                    public_values,
                    values,
                });
            }
            2 => {}
            _ => return Err(Refusal::Syntax),
        }
    }
}
