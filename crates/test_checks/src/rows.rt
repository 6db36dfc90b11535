//! Single rows.
ghost use Rattle.std.specs.Prelude.{◌≡◌, length, IfOk};

use air_audit::{
    AirBuilder, BaseLeaf, DebugConstraintBuilder, ExtensionField, Field, PermutationAirBuilder,
    RowMajorMatrixView, RowWindow, ViewPair, WindowAccess, resolve,
};
use std::alloc::Global;
use test_airs::pool::NamedPool;
use test_lines::words::{Number, count_of, extension_of, listed_elements, show_elements};
use test_lines::{Fault, Why};

/// A builder at a row without permutation data.
pub type PlainRow<'a, F> = DebugConstraintBuilder<'a, F, F>;

/// A builder at a row with permutation data.
pub type ExtRow<'a, F, EF> = DebugConstraintBuilder<'a, F, EF>;

/// A row and the one after it.
#[derive(Drop)]
pub struct Two<T> {
    pub current: Vec<T>,
    pub next: Vec<T>,
}

/// The values at a row.
#[derive(Drop)]
pub struct Row<F, EF> {
    pub index: usize,
    /// The constraint index at which the builder starts to count.
    pub from: usize,
    pub main: Two<F>,
    pub preprocessed: Two<F>,
    pub public: Vec<F>,
    pub selectors: Vec<F>,
    pub periodic: Vec<F>,
    pub permutation: Two<EF>,
    pub challenges: Vec<EF>,
    pub values: Vec<EF>,
}

fn empty_rows<T: Drop>(alloc: Global) -> Two<T> {
    Two {
        current: Vec::new(alloc),
        next: Vec::new(alloc),
    }
}

// The row `CURRENT/NEXT`; without `/NEXT` the next row is the same.
fn two_of<F: Field>(alloc: Global, word: &str) -> Result<Two<F>, Fault> {
    let (current, next) = word.split_once('/').unwrap_or((word, word));
    let current = listed_elements(alloc, current)?;
    let next = listed_elements(alloc, next)?;
    Ok(Two { current, next })
}

// An element of the extension, given by its coefficients, separated by `.`.
fn element_of_extension<F: Field, EF: ExtensionField<F>>(
    alloc: Global,
    word: &str,
) -> Result<EF, Fault> {
    let mut parts = Vec::new(alloc);
    for part in word.split('.') {
        parts.push(part)?;
    }
    extension_of::<F, EF>(alloc, parts.as_slice())
}

// Elements of the extension, separated by commas.
fn listed_extension<F: Field, EF: ExtensionField<F>>(
    alloc: Global,
    word: &str,
) -> Result<Vec<EF>, Fault> {
    let mut all = Vec::new(alloc);
    if word != "-" {
        for part in word.split(',') {
            all.push(element_of_extension::<F, EF>(alloc, part)?)?;
        }
    }
    Ok(all)
}

impl<F: Field, EF: ExtensionField<F>> Row<F, EF> {
    fn new(alloc: Global) -> Self {
        Row {
            index: 0,
            from: 0,
            main: empty_rows(alloc),
            preprocessed: empty_rows(alloc),
            public: Vec::new(alloc),
            selectors: Vec::new(alloc),
            periodic: Vec::new(alloc),
            permutation: empty_rows(alloc),
            challenges: Vec::new(alloc),
            values: Vec::new(alloc),
        }
    }

    fn set_count(&mut self, key: &str, value: &str) -> Result<(), Fault> {
        let count = count_of(value)?;
        match key {
            "row" => self.index = count,
            _ => self.from = count,
        }
        Ok(())
    }

    fn set_rows(&mut self, alloc: Global, key: &str, value: &str) -> Result<(), Fault> {
        let rows = two_of(alloc, value)?;
        match key {
            "main" => self.main = rows,
            _ => self.preprocessed = rows,
        }
        Ok(())
    }

    fn set_elements(&mut self, alloc: Global, key: &str, value: &str) -> Result<(), Fault> {
        let elements = listed_elements(alloc, value)?;
        match key {
            "public" => self.public = elements,
            "selectors" => self.selectors = elements,
            _ => self.periodic = elements,
        }
        Ok(())
    }

    fn set_permutation(&mut self, alloc: Global, value: &str) -> Result<(), Fault> {
        let current = listed_extension::<F, EF>(alloc, value)?;
        let next = listed_extension::<F, EF>(alloc, value)?;
        self.permutation = Two { current, next };
        Ok(())
    }

    fn set_extension(&mut self, alloc: Global, key: &str, value: &str) -> Result<(), Fault> {
        let elements = listed_extension::<F, EF>(alloc, value)?;
        match key {
            "challenges" => self.challenges = elements,
            _ => self.values = elements,
        }
        Ok(())
    }

    // Sets the values that a word `KEY:VALUE` gives.
    fn set(&mut self, alloc: Global, key: &str, value: &str) -> Result<(), Fault> {
        match key {
            "row" | "counting_from" => self.set_count(key, value),
            "main" | "preprocessed" => self.set_rows(alloc, key, value),
            "public" | "selectors" | "periodic" => self.set_elements(alloc, key, value),
            "permutation" => self.set_permutation(alloc, value),
            "challenges" | "values" => self.set_extension(alloc, key, value),
            _ => Err(Fault::Unreadable(Why::NoSuchWord)),
        }
    }

    // The first-row, last-row and transition selectors; all are 0 if no word gives them.
    fn selectors(&self) -> Result<(F, F, F), Fault> {
        match self.selectors.as_slice() {
            [] => Ok((F::ZERO, F::ZERO, F::ZERO)),
            [first, last, transition] => Ok((*first, *last, *transition)),
            _ => Err(Fault::Unreadable(Why::OtherShape)),
        }
    }
}

/// The row of the words `KEY:VALUE`.
pub fn row_of<F: Field, EF: ExtensionField<F>>(
    alloc: Global,
    words: &[&str],
) -> Result<Row<F, EF>, Fault> {
    let mut row = Row::new(alloc);
    for word in words {
        match word.split_once(':') {
            Some((key, value)) => row.set(alloc, key, value)?,
            None => return Err(Fault::Unreadable(Why::NoSuchWord)),
        }
    }
    Ok(row)
}

// The views of two rows of equal length.
fn pair<'a, T: Copy>(rows: &'a Two<T>) -> Result<ViewPair<'a, T>, Fault> {
    let current = rows.current.as_slice();
    let next = rows.next.as_slice();
    if current.len() != next.len() {
        return Err(Fault::Unreadable(Why::OtherShape));
    }
    Ok(ViewPair::new(
        RowMajorMatrixView::new_row(current),
        RowMajorMatrixView::new_row(next),
    ))
}

// The builder at a row, without permutation data.
fn plain_row<'a, F: Field>(alloc: Global, row: &'a Row<F, F>) -> Result<PlainRow<'a, F>, Fault> {
    let (first, last, transition) = row.selectors()?;
    let main = pair(&row.main)?;
    let preprocessed = pair(&row.preprocessed)?;
    let periodic = row.periodic.as_slice().to_vec(alloc)?;
    Ok(DebugConstraintBuilder::new(
        alloc,
        row.index,
        main,
        preprocessed,
        row.public.as_slice(),
        first,
        last,
        transition,
        periodic,
    ))
}

/// The builder at a row, with permutation data.
pub fn ext_row<'a, F: Field, EF: ExtensionField<F>>(
    alloc: Global,
    row: &'a Row<F, EF>,
) -> Result<ExtRow<'a, F, EF>, Fault> {
    let (first, last, transition) = row.selectors()?;
    let main = pair(&row.main)?;
    let preprocessed = pair(&row.preprocessed)?;
    let permutation = pair(&row.permutation)?;
    let periodic = row.periodic.as_slice().to_vec(alloc)?;
    let builder = DebugConstraintBuilder::new_with_permutation(
        alloc,
        row.index,
        main,
        preprocessed,
        row.public.as_slice(),
        first,
        last,
        transition,
        permutation,
        row.challenges.as_slice(),
        row.values.as_slice(),
        periodic,
    );
    Ok(builder.counting_from(row.from))
}

// Adds a number, or `-` for `None`.
fn show_found<F: Number>(found: Option<F>, text: &mut String) -> Result<(), Fault> {
    match found {
        Some(x) => {
            let number = x.number();
            write!(text, " {number}")?;
        }
        None => text.push_str(" -")?,
    }
    Ok(())
}

// Adds both rows of a window, up to the first column out of range.
fn show_window<F: Number>(
    window: &RowWindow<'_, F>,
    width: usize,
    text: &mut String,
) -> Result<(), Fault> {
    let past = width.saturating_add(1);
    for column in 0..past {
        show_found(window.current(column), text)?;
    }
    text.push_str(" /")?;
    for column in 0..past {
        show_found(window.next(column), text)?;
    }
    Ok(())
}

// Adds both windows, which have these widths.
fn show_windows<F: Number + 'static>(
    builder: &PlainRow<'_, F>,
    main: usize,
    preprocessed: usize,
    text: &mut String,
) -> Result<(), Fault> {
    text.push_str("main")?;
    show_window(&builder.main()?, main, text)?;
    text.push_str(", preprocessed")?;
    show_window(builder.preprocessed(), preprocessed, text)
}

// Adds the public values and the periodic values.
fn show_values<F: Number + 'static>(
    builder: &PlainRow<'_, F>,
    text: &mut String,
) -> Result<(), Fault> {
    text.push_str(", public ")?;
    show_elements(builder.public_values(), text)?;
    text.push_str(", periodic ")?;
    show_elements(builder.periodic_values(), text)
}

// Lists the selectors.
fn list_selectors<F: Number + 'static>(
    builder: &mut PlainRow<'_, F>,
    selectors: &mut Vec<F>,
) -> Result<(), Fault> {
    selectors.push(builder.is_first_row()?)?;
    selectors.push(builder.is_last_row()?)?;
    selectors.push(builder.is_transition()?)?;
    Ok(())
}

// Adds the selectors.
fn show_selectors<F: Number + 'static>(
    alloc: Global,
    builder: &mut PlainRow<'_, F>,
    text: &mut String,
) -> Result<(), Fault> {
    let mut selectors = Vec::new(alloc);
    list_selectors(builder, &mut selectors)?;
    text.push_str(", selectors ")?;
    show_elements(selectors.as_slice(), text)
}

// Adds the numbers of challenges and permutation values, and whether there is a permutation trace.
fn show_permutation<F: Number + 'static>(
    builder: &PlainRow<'_, F>,
    text: &mut String,
) -> Result<(), Fault> {
    let challenges = builder.permutation_randomness().len();
    let values = builder.permutation_values().len();
    write!(text, ", challenges {challenges}, values {values}, ")?;
    match builder.permutation() {
        Ok(_) => text.push_str("permutation")?,
        Err(error) => write!(text, "{error:?}")?,
    }
    Ok(())
}

// Adds all values of a builder whose windows have these widths.
fn show_lent<F: Number + 'static>(
    alloc: Global,
    builder: &mut PlainRow<'_, F>,
    main: usize,
    preprocessed: usize,
    text: &mut String,
) -> Result<(), Fault> {
    show_windows(builder, main, preprocessed, text)?;
    show_values(builder, text)?;
    show_selectors(alloc, builder, text)?;
    show_permutation(builder, text)
}

// Adds all values of the builder at this row.
fn lend_at<F: Number + 'static>(
    alloc: Global,
    row: &Row<F, F>,
    text: &mut String,
) -> Result<(), Fault> {
    let (main, preprocessed) = (row.main.current.len(), row.preprocessed.current.len());
    let mut builder = plain_row(alloc, row)?;
    show_lent(alloc, &mut builder, main, preprocessed, text)
}

/// Adds all values of the builder at a row.
pub fn lend<F: Number + 'static>(
    alloc: Global,
    words: &[&str],
    text: &mut String,
) -> Result<(), Fault> {
    let row = row_of::<F, F>(alloc, words)?;
    lend_at(alloc, &row, text)
}

// Adds the value of an expression at the builder's row.
fn show_value<F: Number + 'static>(
    alloc: Global,
    pool: &NamedPool<'_, BaseLeaf<F>>,
    x: &str,
    builder: &mut PlainRow<'_, F>,
    text: &mut String,
) -> Result<(), Fault> {
    let x = pool.at(x)?;
    let value = resolve(alloc, &pool.pool, x, builder)?.number();
    write!(text, "{value}")?;
    Ok(())
}

// Adds the value of an expression at this row.
fn resolve_at<F: Number + 'static>(
    alloc: Global,
    pool: &NamedPool<'_, BaseLeaf<F>>,
    x: &str,
    row: &Row<F, F>,
    text: &mut String,
) -> Result<(), Fault> {
    let mut builder = plain_row(alloc, row)?;
    show_value(alloc, pool, x, &mut builder, text)
}

/// Adds the value of an expression at a row.
pub fn show_resolved<F: Number + 'static>(
    alloc: Global,
    pool: &NamedPool<'_, BaseLeaf<F>>,
    x: &str,
    words: &[&str],
    text: &mut String,
) -> Result<(), Fault> {
    let row = row_of::<F, F>(alloc, words)?;
    resolve_at(alloc, pool, x, &row, text)
}
