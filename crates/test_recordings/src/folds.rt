//! Folds of an AIR's values at one row, beside its recording; and the number of alphas that hide values.
ghost use Rattle.std.specs.Prelude.{◌≡◌, IsTrue, IfOk};
ghost use Rattle.air_folder.specs.FolderRow.{accumulator_of};
ghost use Rattle.air_folder.specs.Hiding.{IsBelowAll, IsIncreasing};

use crate::recordings::Recorder;
use air_builder::{Air, BaseAir};
use air_field::{BabyBear, ExtensionField, Field, RowMajorMatrixView, ViewPair};
use air_folder::{ConstraintFolder, Folded, fold_air, hiding_alphas};
use air_recording::AirLayout;
use std::alloc::Global;
use std::cmp::Ordering;
use test_lines::words::{Number, listed_elements, show_elements};
use test_lines::{Fault, Why};

pub type Folder<'a, F, EF> = ConstraintFolder<'a, F, EF>;

/// The values from which a folder is made.
#[derive(Drop)]
pub struct Row<EF> {
    current: Vec<EF>,
    next: Vec<EF>,
    permutation: Vec<EF>,
    next_permutation: Vec<EF>,
    public_values: Vec<EF>,
    challenges: Vec<EF>,
    values: Vec<EF>,
    selectors: Vec<EF>,
    alpha: Vec<EF>,
}

impl<EF> Row<EF> {
    // A row without values.
    fn new(alloc: Global) -> Self {
        Row {
            current: Vec::new(alloc),
            next: Vec::new(alloc),
            permutation: Vec::new(alloc),
            next_permutation: Vec::new(alloc),
            public_values: Vec::new(alloc),
            challenges: Vec::new(alloc),
            values: Vec::new(alloc),
            selectors: Vec::new(alloc),
            alpha: Vec::new(alloc),
        }
    }
}

// The element of a word: a number, or coefficients separated by commas.
fn extension_word<F: Field, EF: ExtensionField<F>>(alloc: Global, word: &str) -> Result<EF, Fault> {
    let all: Vec<F> = listed_elements(alloc, word)?;
    match all.as_slice() {
        [x] => Ok(EF::from_base(*x)),
        all if all.len() == EF::DIMENSION => Ok(EF::from_basis_coefficients(all)),
        _ => Err(Fault::Unreadable(Why::OtherDimension)),
    }
}

// Adds the elements of a list, separated by `/`.
fn add_list<F: Field, EF: ExtensionField<F>>(
    alloc: Global,
    list: &str,
    all: &mut Vec<EF>,
) -> Result<(), Fault> {
    for part in list.split('/') {
        all.push(extension_word::<F, EF>(alloc, part)?)?;
    }
    Ok(())
}

// Adds the elements of the word that begins with the key, if there is one.
fn add_given<F: Field, EF: ExtensionField<F>>(
    alloc: Global,
    words: &[&str],
    key: &str,
    all: &mut Vec<EF>,
) -> Result<(), Fault> {
    for word in words {
        match word.split_once(':') {
            Some((name, list)) if name == key => add_list::<F, EF>(alloc, list, all)?,
            Some(_) => {}
            None => return Err(Fault::Unreadable(Why::NoSuchWord)),
        }
    }
    Ok(())
}

// Adds the rows of the traces that the words give.
fn add_traces<F: Field, EF: ExtensionField<F>>(
    alloc: Global,
    words: &[&str],
    row: &mut Row<EF>,
) -> Result<(), Fault> {
    add_given::<F, EF>(alloc, words, "row", &mut row.current)?;
    add_given::<F, EF>(alloc, words, "next", &mut row.next)?;
    add_given::<F, EF>(alloc, words, "permutation", &mut row.permutation)?;
    add_given::<F, EF>(alloc, words, "next_permutation", &mut row.next_permutation)
}

// Adds the other values that the words give.
fn add_values<F: Field, EF: ExtensionField<F>>(
    alloc: Global,
    words: &[&str],
    row: &mut Row<EF>,
) -> Result<(), Fault> {
    add_given::<F, EF>(alloc, words, "public", &mut row.public_values)?;
    add_given::<F, EF>(alloc, words, "challenges", &mut row.challenges)?;
    add_given::<F, EF>(alloc, words, "values", &mut row.values)?;
    add_given::<F, EF>(alloc, words, "selectors", &mut row.selectors)?;
    add_given::<F, EF>(alloc, words, "alpha", &mut row.alpha)
}

/// The values of a folder, from the words. (Lists are filled in place, since each `?` also drops all owned values.)
pub fn row_of<F: Field, EF: ExtensionField<F>>(
    alloc: Global,
    words: &[&str],
) -> Result<Row<EF>, Fault> {
    let mut row = Row::new(alloc);
    add_traces::<F, EF>(alloc, words, &mut row)?;
    add_values::<F, EF>(alloc, words, &mut row)?;
    Ok(row)
}

// A folder at the row.
fn folder_of<'a, F: Field + 'static, EF: ExtensionField<F> + 'static>(
    row: &'a Row<EF>,
) -> Result<Folder<'a, F, EF>, Fault>
    ensures { IfOk result (λ folder. accumulator_of folder ≡ EF.over.ring.zero) }
{
    if row.current.len() != row.next.len() || row.permutation.len() != row.next_permutation.len() {
        return Err(Fault::Unreadable(Why::OtherShape));
    }
    let ([first, last, transition], [alpha]) = (row.selectors.as_slice(), row.alpha.as_slice())
    else {
        return Err(Fault::Unreadable(Why::OtherShape));
    };
    let none = RowMajorMatrixView::new_row(&[]);
    let permutation = if row.permutation.is_empty() {
        None
    } else {
        Some(ViewPair::new(
            RowMajorMatrixView::new_row(row.permutation.as_slice()),
            RowMajorMatrixView::new_row(row.next_permutation.as_slice()),
        ))
    };
    Ok(ConstraintFolder::new(
        ViewPair::new(
            RowMajorMatrixView::new_row(row.current.as_slice()),
            RowMajorMatrixView::new_row(row.next.as_slice()),
        ),
        ViewPair::new(none, none),
        permutation,
        row.public_values.as_slice(),
        &[],
        row.challenges.as_slice(),
        row.values.as_slice(),
        *first,
        *last,
        *transition,
        *alpha,
    ))
}

// Adds the fold, and the numbers and indices of the constraints.
fn show_folded<F: Number, EF: ExtensionField<F>>(
    folded: &Folded<F, EF>,
    text: &mut String,
) -> Result<(), Fault> {
    show_elements(folded.accumulator.as_basis_coefficients_slice(), text)?;
    let base = folded.recorded.base.len();
    let ext = folded.recorded.ext.len();
    let places = &folded.layout;
    write!(text, ", {base} base, {ext} extension, {places:?}")?;
    Ok(())
}

/// Adds the fold of an AIR at the row, and the numbers and indices of its constraints.
pub fn answer_fold<
    'a,
    F: Number + 'static,
    EF: ExtensionField<F> + 'static,
    A: BaseAir<F> + Air<Recorder<F, EF>> + Air<Folder<'a, F, EF>>,
>(
    alloc: Global,
    air: &A,
    layout: AirLayout,
    row: &'a Row<EF>,
    text: &mut String,
) -> Result<(), Fault> {
    let mut folder: Folder<'a, F, EF> = folder_of(row)?;
    let folded = fold_air(alloc, air, layout, &mut folder)?;
    show_folded(&folded, text)
}

// Whether a number is below all of these.
fn is_below_all(x: BabyBear, all: &[BabyBear]) -> bool
    ensures { IsTrue result → IsBelowAll ⟦<BabyBear as Ord>⟧.cmp x all.now }
{
    match all {
        [] => true,
        [y, rest @ ..] => x.cmp(y) == Ordering::Less && is_below_all(x, rest),
    }
}

// Whether each number is below all that follow it.
fn is_increasing(all: &[BabyBear]) -> bool
    ensures { IsTrue result → IsIncreasing ⟦<BabyBear as Ord>⟧.cmp all.now }
{
    match all {
        [] => true,
        [x, rest @ ..] => is_below_all(*x, rest) && is_increasing(rest),
    }
}

// Adds the number of alphas that fold the values to zero. The alphas must increase.
fn show_hiding(values: &[BabyBear], alphas: &[BabyBear], text: &mut String) -> Result<(), Fault> {
    if !is_increasing(alphas) {
        return Err(Fault::Unreadable(Why::OtherShape));
    }
    let count = hiding_alphas(values, alphas);
    write!(text, "{count}")?;
    Ok(())
}

/// Adds the number of alphas in a word that fold the values in a word to zero.
pub fn answer_hiding(alloc: Global, words: &[&str], text: &mut String) -> Result<(), Fault> {
    let [values, alphas] = words else {
        return Err(Fault::Unreadable(Why::NoSuchCall));
    };
    let values: Vec<BabyBear> = listed_elements(alloc, *values)?;
    let alphas: Vec<BabyBear> = listed_elements(alloc, *alphas)?;
    show_hiding(&values, &alphas, text)
}
