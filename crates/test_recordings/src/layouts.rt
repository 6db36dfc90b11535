//! Calls on layouts of AIRs and of constraints.

use air_field::{ExtensionField, Field};
use air_recording::{AirLayout, ConstraintLayout, constraint_degree_from_poly_degree};
use std::alloc::Global;
use test_lines::words::{
    Number, count_of, counts_of, elements_of, extension_of, show_elements, show_spelt,
};
use test_lines::{Fault, Why};

// Sets the count of this name.
fn set(layout: &mut AirLayout, name: &str, count: usize) -> Result<(), Fault> {
    match name {
        "preprocessed" => layout.preprocessed_width = count,
        "main" => layout.main_width = count,
        "public" => layout.num_public_values = count,
        "periodic" => layout.num_periodic_columns = count,
        "permutation" => layout.permutation_width = count,
        "challenges" => layout.num_permutation_challenges = count,
        "values" => layout.num_permutation_values = count,
        _ => return Err(Fault::Unreadable(Why::NoSuchWord)),
    }
    Ok(())
}

/// The layout of a word such as `main:2,public:1`. Counts without a name are those of `start`; `own` is `start` itself.
pub fn layout_of(start: AirLayout, word: &str) -> Result<AirLayout, Fault> {
    let mut layout = start;
    if word == "own" {
        return Ok(layout);
    }
    for part in word.split(',') {
        let Some((name, count)) = part.split_once(':') else {
            return Err(Fault::Unreadable(Why::NoSuchWord));
        };
        set(&mut layout, name, count_of(count)?)?;
    }
    Ok(layout)
}

// The layout of these constraint indices of each kind.
fn places_of(alloc: Global, base: &str, ext: &str) -> Result<ConstraintLayout, Fault> {
    let base_indices = counts_of(alloc, base)?;
    let ext_indices = counts_of(alloc, ext)?;
    Ok(ConstraintLayout {
        base_indices,
        ext_indices,
    })
}

/// Adds the coefficients of elements, as in `[[1 0 0 0] [0 1 0 0]]`.
pub fn show_extensions<F: Number, EF: ExtensionField<F>>(
    elements: &[EF],
    text: &mut String,
) -> Result<(), Fault> {
    text.push_str("[")?;
    for (place, element) in elements.iter().enumerate() {
        if place > 0 {
            text.push_str(" ")?;
        }
        show_elements(element.as_basis_coefficients_slice(), text)?;
    }
    text.push_str("]")?;
    Ok(())
}

// Adds lists of elements, as in `[[1 2] [3 4]]`.
fn show_lists<F: Number>(lists: &[Vec<F>], text: &mut String) -> Result<(), Fault> {
    text.push_str("[")?;
    for (place, list) in lists.iter().enumerate() {
        if place > 0 {
            text.push_str(" ")?;
        }
        show_elements(list.as_slice(), text)?;
    }
    text.push_str("]")?;
    Ok(())
}

// Adds the coordinates of the base weights, one list for each basis element, and then the extension weights.
fn show_weights<F: Number, EF: ExtensionField<F>>(
    coordinates: &[Vec<F>],
    powers: &[EF],
    text: &mut String,
) -> Result<(), Fault> {
    show_lists(coordinates, text)?;
    text.push_str(" and ")?;
    show_extensions::<F, EF>(powers, text)
}

// Adds the weights into which an alpha is decomposed.
fn show_decomposed<F: Number, EF: ExtensionField<F>>(
    alloc: Global,
    layout: &ConstraintLayout,
    alpha: &[&str],
    text: &mut String,
) -> Result<(), Fault> {
    let alpha = extension_of::<F, EF>(alloc, alpha)?;
    let (coordinates, powers) = layout.decompose_alpha::<F, EF>(alloc, alpha)?;
    show_weights::<F, EF>(&coordinates, &powers, text)
}

// Adds the weights into which an alpha of either field is decomposed, for the constraint indices in words.
fn decompose_alpha<F: Number, EF: ExtensionField<F>>(
    alloc: Global,
    words: &[&str],
    text: &mut String,
) -> Result<(), Fault> {
    let [base, ext, alpha @ ..] = words else {
        return Err(Fault::Unreadable(Why::NoSuchCall));
    };
    let layout = places_of(alloc, *base, *ext)?;
    match alpha {
        [_] => show_decomposed::<F, F>(alloc, &layout, alpha, text),
        _ => show_decomposed::<F, EF>(alloc, &layout, alpha, text),
    }
}

// Adds the number of constraint indices.
fn show_total(alloc: Global, words: &[&str], text: &mut String) -> Result<(), Fault> {
    let [base, ext] = words else {
        return Err(Fault::Unreadable(Why::NoSuchCall));
    };
    let count = places_of(alloc, *base, *ext)?.total_constraints();
    write!(text, "{count}")?;
    Ok(())
}

// The sum of weight times value, where the value is that of the constraint at the index beside the weight.
fn weigh<F: Field>(weights: &[F], places: &[usize], values: &[F]) -> Result<F, Fault> {
    let mut sum = F::ZERO;
    for (weight, place) in weights.iter().zip(places) {
        match values.get(*place) {
            Some(value) => sum = sum.add(weight.mul(*value)),
            None => return Err(Fault::Unreadable(Why::OtherShape)),
        }
    }
    Ok(sum)
}

// The recombination of values by the coordinates of the base weights and the extension weights.
fn recombination<F: Field>(
    layout: &ConstraintLayout,
    coordinates: &[Vec<F>],
    powers: &[F],
    values: &[F],
) -> Result<F, Fault> {
    let mut sum = weigh(powers, &layout.ext_indices, values)?;
    for list in coordinates {
        let more = weigh(list.as_slice(), &layout.base_indices, values)?;
        sum = Field::add(sum, more);
    }
    Ok(sum)
}

// The recombination of values for an alpha of the base field.
fn recombined_by<F: Field>(
    alloc: Global,
    layout: &ConstraintLayout,
    alpha: &str,
    values: &[F],
) -> Result<F, Fault> {
    let alpha = extension_of::<F, F>(alloc, &[alpha])?;
    let (coordinates, powers) = layout.decompose_alpha::<F, F>(alloc, alpha)?;
    recombination(layout, &coordinates, &powers, values)
}

// The recombination of the values in words.
fn recombination_of<F: Field>(
    alloc: Global,
    layout: &ConstraintLayout,
    alpha: &str,
    values: &[&str],
) -> Result<F, Fault> {
    let values: Vec<F> = elements_of(alloc, values)?;
    recombined_by(alloc, layout, alpha, &values)
}

// Adds the recombination as a number.
fn show_recombined<F: Number>(
    alloc: Global,
    layout: &ConstraintLayout,
    alpha: &str,
    values: &[&str],
    text: &mut String,
) -> Result<(), Fault> {
    let sum: F = recombination_of(alloc, layout, alpha, values)?;
    let number = sum.number();
    write!(text, "{number}")?;
    Ok(())
}

// Adds the recombination for the constraint indices and the values in words.
fn recombine<F: Number>(alloc: Global, words: &[&str], text: &mut String) -> Result<(), Fault> {
    let [base, ext, alpha, values @ ..] = words else {
        return Err(Fault::Unreadable(Why::NoSuchCall));
    };
    let layout = places_of(alloc, *base, *ext)?;
    show_recombined::<F>(alloc, &layout, *alpha, values, text)
}

// Adds the constraint degree for a polynomial degree over a number of rows.
fn show_degree(words: &[&str], text: &mut String) -> Result<(), Fault> {
    let [degree, rows] = words else {
        return Err(Fault::Unreadable(Why::NoSuchCall));
    };
    let (degree, rows) = (count_of(*degree)?, count_of(*rows)?);
    let degree = constraint_degree_from_poly_degree(degree, rows);
    write!(text, "{degree}")?;
    Ok(())
}

// Adds the value that a JSON word spells.
fn show_spelling(alloc: Global, words: &[&str], text: &mut String) -> Result<(), Fault> {
    let [name, word] = words else {
        return Err(Fault::Unreadable(Why::NoSuchCall));
    };
    match *name {
        "AirLayout" => show_spelt::<AirLayout>(alloc, *word, text),
        "ConstraintLayout" => show_spelt::<ConstraintLayout>(alloc, *word, text),
        _ => Err(Fault::Unreadable(Why::NoSuchCall)),
    }
}

/// Adds a layout. More words are an error.
pub fn show_air_layout(layout: AirLayout, words: &[&str], text: &mut String) -> Result<(), Fault> {
    if !words.is_empty() {
        return Err(Fault::Unreadable(Why::NoSuchCall));
    }
    write!(text, "{layout:?}")?;
    Ok(())
}

/// Adds the answer of a call on a layout.
pub fn answer_layout<F: Number, EF: ExtensionField<F>>(
    alloc: Global,
    call: &str,
    words: &[&str],
    text: &mut String,
) -> Result<(), Fault> {
    match call {
        "default_layout" => show_air_layout(AirLayout::default(), words, text),
        "spelling" => show_spelling(alloc, words, text),
        "total_constraints" => show_total(alloc, words, text),
        "decompose_alpha" => decompose_alpha::<F, EF>(alloc, words, text),
        "recombination" => recombine::<F>(alloc, words, text),
        "constraint_degree_from_poly_degree" => show_degree(words, text),
        _ => Err(Fault::Unreadable(Why::NoSuchCall)),
    }
}
