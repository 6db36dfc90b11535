//! The words that the program is called with.
ghost use Rattle.std.specs.Prelude.{◌≡◌, ◌↔◌, ◌≢◌, None, IfOk, IfErr, length};

use crate::refusals::Refusal;

/// A cell of a trace.
#[derive(Clone, Copy, Drop)]
pub struct Cell {
    pub row: usize,
    pub column: usize,
}

/// The number in a word, in decimal digits.
fn number_of(word: &str) -> Result<usize, Refusal>
    ensures { IfErr result (λ why. why ≡ Refusal.NotANumber) }
{
    match word.parse::<usize>() {
        Ok(number) => Ok(number),
        Err(_) => Err(Refusal::NotANumber),
    }
}

/// The cell that the words name, if there are any.
pub fn cell_of(words: &[String]) -> Result<Option<Cell>, Refusal>
    ensures none { IfOk result (λ cell. (cell ≡ None) ↔ (length words.now ≡ 0)) }
    ensures two { IfOk result (λ cell. cell ≢ None → length words.now ≡ 2) }
    ensures usage { IfErr result (λ why. why ≡ Refusal.Usage → length words.now ≢ 2) }
    ensures number { IfErr result (λ why. why ≢ Refusal.Usage → why ≡ Refusal.NotANumber) }
{
    match words {
        [] => Ok(None),
        [row, column] => Ok(Some(Cell {
            row: number_of(row.as_str())?,
            column: number_of(column.as_str())?,
        })),
        _ => Err(Refusal::Usage),
    }
}
