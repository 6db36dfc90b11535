//! Calls on single and virtual columns. A column is written `main:2` or `preprocessed:0`, with a weight `main:2:16`, or
//! in a known trace `2:16`. A row is its elements, separated by commas.

use air_field::{Field, FieldRing};
use air_gadgets::{PairCol, VirtualPairCol};
use std::alloc::Global;
use test_lines::words::{Number, count_of, counts_of, element_of, listed_elements};
use test_lines::{Fault, Why};

fn column_of(word: &str) -> Result<PairCol, Fault> {
    match word.split_once(':') {
        Some(("main", column)) => Ok(PairCol::Main(count_of(column)?)),
        Some(("preprocessed", column)) => Ok(PairCol::Preprocessed(count_of(column)?)),
        _ => Err(Fault::Unreadable(Why::NoSuchWord)),
    }
}

fn show_in_range(given: &[&str], text: &mut String) -> Result<(), Fault> {
    let [column, preprocessed, main] = given else {
        return Err(Fault::Unreadable(Why::NoSuchCall));
    };
    let column = column_of(*column)?;
    let preprocessed = count_of(*preprocessed)?;
    let inside = column.in_range(preprocessed, count_of(*main)?);
    write!(text, "{inside}")?;
    Ok(())
}

// Adds the element of a column in these rows.
fn show_found<F: Number>(
    column: PairCol,
    preprocessed: &[F],
    main: &[F],
    text: &mut String,
) -> Result<(), Fault> {
    if !column.in_range(preprocessed.len(), main.len()) {
        return Err(Fault::Unreadable(Why::OtherShape));
    }
    let number = column.get(preprocessed, main).number();
    write!(text, "{number}")?;
    Ok(())
}

fn show_element<F: Number>(alloc: Global, given: &[&str], text: &mut String) -> Result<(), Fault> {
    let [column, preprocessed, main] = given else {
        return Err(Fault::Unreadable(Why::NoSuchCall));
    };
    let column = column_of(*column)?;
    let preprocessed: Vec<F> = listed_elements(alloc, *preprocessed)?;
    let main: Vec<F> = listed_elements(alloc, *main)?;
    show_found(column, &preprocessed, &main, text)
}

/// Adds the answer of a call on a single column.
pub fn pair_col<F: Number>(alloc: Global, call: &[&str], text: &mut String) -> Result<(), Fault> {
    let [word, given @ ..] = call else {
        return Err(Fault::Unreadable(Why::NoSuchCall));
    };
    match *word {
        "in_range" => show_in_range(given, text),
        "get" => show_element::<F>(alloc, given, text),
        _ => Err(Fault::Unreadable(Why::NoSuchCall)),
    }
}

// A column of either trace and its weight.
fn weighted_column<F: Field>(word: &str) -> Result<(PairCol, F), Fault> {
    let Some((column, weight)) = word.rsplit_once(':') else {
        return Err(Fault::Unreadable(Why::NoSuchWord));
    };
    let column = column_of(column)?;
    Ok((column, element_of(weight)?))
}

fn weighted_columns<F: Field>(alloc: Global, words: &[&str]) -> Result<Vec<(PairCol, F)>, Fault> {
    let mut all = Vec::new(alloc);
    for word in words {
        all.push(weighted_column(*word)?)?;
    }
    Ok(all)
}

// A column of one trace and its weight.
fn weighted_here<F: Field>(word: &str) -> Result<(usize, F), Fault> {
    let Some((column, weight)) = word.split_once(':') else {
        return Err(Fault::Unreadable(Why::NoSuchWord));
    };
    let column = count_of(column)?;
    Ok((column, element_of(weight)?))
}

fn all_weighted_here<F: Field>(alloc: Global, words: &[&str]) -> Result<Vec<(usize, F)>, Fault> {
    let mut all = Vec::new(alloc);
    for word in words {
        all.push(weighted_here(*word)?)?;
    }
    Ok(all)
}

// The virtual column of a constant and of weighted columns of one trace.
fn newly_here<F: Field>(
    alloc: Global,
    word: &str,
    c: F,
    all: &[&str],
) -> Result<VirtualPairCol<F>, Fault> {
    let all: Vec<(usize, F)> = all_weighted_here(alloc, all)?;
    match word {
        "new_main" => Ok(VirtualPairCol::new_main(alloc, all, c)?),
        _ => Ok(VirtualPairCol::new_preprocessed(alloc, all, c)?),
    }
}

// The virtual column of a constant and of weighted columns.
fn new_column<F: Field>(
    alloc: Global,
    word: &str,
    given: &[&str],
) -> Result<VirtualPairCol<F>, Fault> {
    let [c, all @ ..] = given else {
        return Err(Fault::Unreadable(Why::NoSuchCall));
    };
    let c: F = element_of(*c)?;
    match word {
        "new" => Ok(VirtualPairCol::new(weighted_columns(alloc, all)?, c)),
        _ => newly_here(alloc, word, c, all),
    }
}

// The virtual column of the difference of two columns.
fn difference<F: Field>(
    alloc: Global,
    word: &str,
    x: &str,
    y: &str,
) -> Result<VirtualPairCol<F>, Fault> {
    let x = count_of(x)?;
    let y = count_of(y)?;
    match word {
        "diff_main" => Ok(VirtualPairCol::diff_main(alloc, x, y)?),
        "diff_preprocessed" => Ok(VirtualPairCol::diff_preprocessed(alloc, x, y)?),
        _ => Err(Fault::Unreadable(Why::NoSuchCall)),
    }
}

// The virtual column of one column of the trace that the word names.
fn single_here<F: Field>(alloc: Global, word: &str, x: &str) -> Result<VirtualPairCol<F>, Fault> {
    let x = count_of(x)?;
    match word {
        "single_main" => Ok(VirtualPairCol::single_main(alloc, x)?),
        _ => Ok(VirtualPairCol::single_preprocessed(alloc, x)?),
    }
}

// The virtual column of the sum of columns of the trace that the word names.
fn sum_here<F: Field>(alloc: Global, word: &str, all: &str) -> Result<VirtualPairCol<F>, Fault> {
    let all = counts_of(alloc, all)?;
    match word {
        "sum_main" => Ok(VirtualPairCol::sum_main(alloc, all)?),
        _ => Ok(VirtualPairCol::sum_preprocessed(alloc, all)?),
    }
}

// The virtual column of a call with one operand: a constant, a column, or the sum of columns.
fn of_word<F: Field>(alloc: Global, word: &str, x: &str) -> Result<VirtualPairCol<F>, Fault> {
    match word {
        "constant" => Ok(VirtualPairCol::constant(alloc, element_of(x)?)),
        "single" => Ok(VirtualPairCol::single(alloc, column_of(x)?)?),
        "single_main" | "single_preprocessed" => single_here(alloc, word, x),
        "sum_main" | "sum_preprocessed" => sum_here(alloc, word, x),
        _ => Err(Fault::Unreadable(Why::NoSuchCall)),
    }
}

// The virtual column of a call without operands.
fn of_nothing<F: Field>(alloc: Global, word: &str) -> Result<VirtualPairCol<F>, Fault> {
    match word {
        "one" => Ok(VirtualPairCol::one(alloc)),
        _ => Err(Fault::Unreadable(Why::NoSuchCall)),
    }
}

fn of_few<F: Field>(alloc: Global, word: &str, given: &[&str]) -> Result<VirtualPairCol<F>, Fault> {
    match given {
        [] => of_nothing(alloc, word),
        [x] => of_word(alloc, word, *x),
        [x, y] => difference(alloc, word, *x, *y),
        _ => Err(Fault::Unreadable(Why::NoSuchCall)),
    }
}

// The virtual column that a call makes.
fn make_column<F: Field>(alloc: Global, call: &[&str]) -> Result<VirtualPairCol<F>, Fault> {
    let [word, given @ ..] = call else {
        return Err(Fault::Unreadable(Why::NoSuchCall));
    };
    match *word {
        "new" | "new_main" | "new_preprocessed" => new_column(alloc, *word, given),
        word => of_few(alloc, word, given),
    }
}

fn show_value<F: Number>(
    column: &VirtualPairCol<F>,
    preprocessed: &[F],
    main: &[F],
    text: &mut String,
) -> Result<(), Fault> {
    if !column.fits(preprocessed.len(), main.len()) {
        return Err(Fault::Unreadable(Why::OtherShape));
    }
    let mut ring = FieldRing::<F>::new();
    let found = column.apply(&mut ring, preprocessed, main)?;
    let number = found.number();
    write!(text, "{number}")?;
    Ok(())
}

// Adds the value of the virtual column in these rows.
fn show_applied<F: Number>(
    alloc: Global,
    column: &VirtualPairCol<F>,
    preprocessed: &str,
    main: &str,
    text: &mut String,
) -> Result<(), Fault> {
    let preprocessed: Vec<F> = listed_elements(alloc, preprocessed)?;
    let main: Vec<F> = listed_elements(alloc, main)?;
    show_value(column, &preprocessed, &main, text)
}

// Adds whether the virtual column fits these widths.
fn show_fits<F: Number>(
    column: &VirtualPairCol<F>,
    preprocessed: &str,
    main: &str,
    text: &mut String,
) -> Result<(), Fault> {
    let preprocessed = count_of(preprocessed)?;
    let fits = column.fits(preprocessed, count_of(main)?);
    write!(text, "{fits}")?;
    Ok(())
}

fn show_call<F: Number>(
    alloc: Global,
    column: &VirtualPairCol<F>,
    word: &str,
    preprocessed: &str,
    main: &str,
    text: &mut String,
) -> Result<(), Fault> {
    match word {
        "fits" => show_fits(column, preprocessed, main, text),
        "apply" => show_applied(alloc, column, preprocessed, main, text),
        _ => show_applied(alloc, &column.clone()?, preprocessed, main, text),
    }
}

/// Adds the answer of a call on a virtual column, which the words after the call make.
pub fn virtual_pair_col<F: Number>(
    alloc: Global,
    call: &[&str],
    text: &mut String,
) -> Result<(), Fault> {
    let [word, preprocessed, main, maker @ ..] = call else {
        return Err(Fault::Unreadable(Why::NoSuchCall));
    };
    match *word {
        "fits" | "apply" | "clone_apply" => {
            let column: VirtualPairCol<F> = make_column(alloc, maker)?;
            show_call(alloc, &column, *word, *preprocessed, *main, text)
        }
        _ => Err(Fault::Unreadable(Why::NoSuchCall)),
    }
}
