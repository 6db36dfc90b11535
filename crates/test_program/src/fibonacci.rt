//! Fibonacci in each call that records, checks or audits. (Most functions are over any AIR, since each call that names
//! one is slow to prove.)

use crate::checks::{show_check, show_report};
use air_audit::{
    Air, AirLayout, Audit, BaseAir, ConstraintLayout, DebugConstraintBuilder, Recorded,
    SymbolicAirBuilder, audit_air, get_all_symbolic_constraints, get_constraint_layout,
    get_max_constraint_degree, get_max_constraint_degree_extension, get_symbolic_constraints,
    get_symbolic_constraints_extension,
};
use air_field::{Field, RowMajorMatrix};
use example_fibonacci::Fibonacci;
use std::alloc::Global;
use test_lines::words::{count_of, listed_elements};
use test_lines::{Fault, Why};

type Recorder<F> = SymbolicAirBuilder<F, F>;

/// A trace, public values, and the cap if the words give one.
#[derive(Drop)]
struct Traced<F> {
    main: RowMajorMatrix<F>,
    public_values: Vec<F>,
    cap: Option<Option<usize>>,
}

// A cap; `-` means none.
fn cap_of(word: &str) -> Result<Option<usize>, Fault> {
    match word {
        "-" => Ok(None),
        _ => Ok(Some(count_of(word)?)),
    }
}

// The width, the values row by row, the public values, and the cap of a check.
fn traced_of<F: Field>(alloc: Global, words: &[&str]) -> Result<Traced<F>, Fault> {
    let (width, values, public, cap) = match words {
        [width, values, "public", public] => (width, values, public, None),
        [width, values, "public", public, "cap", cap] => {
            (width, values, public, Some(cap_of(*cap)?))
        }
        _ => return Err(Fault::Unreadable(Why::NoSuchCall)),
    };
    let width = count_of(*width)?;
    let main = RowMajorMatrix::new(listed_elements(alloc, *values)?, width)?;
    let public_values = listed_elements(alloc, *public)?;
    Ok(Traced {
        main,
        public_values,
        cap,
    })
}

// Adds the indices of recorded constraints.
fn show_layout(layout: &ConstraintLayout, text: &mut String) -> Result<(), Fault> {
    let base = &layout.base_indices;
    let ext = &layout.ext_indices;
    write!(text, "base {base:?} ext {ext:?}")?;
    Ok(())
}

// Adds the result of an audit.
fn show_audited<F: Field>(audit: &Audit<F>, text: &mut String) -> Result<(), Fault> {
    show_layout(&audit.layout, text)?;
    let recorded = audit.recorded.base.len();
    let degree = audit.degree;
    write!(text, " recorded {recorded} degree {degree} ")?;
    show_report(&audit.report, text)
}

// Adds the answer of an audit.
fn show_audit<
    'a,
    F: Field + 'static,
    A: BaseAir<F> + Air<Recorder<F>> + Air<DebugConstraintBuilder<'a, F, F>>,
>(alloc: Global, air: &'a A, given: &'a Traced<F>, text: &mut String) -> Result<(), Fault> {
    let audit = audit_air(alloc, air, &given.main, &given.public_values, 0)?;
    show_audited(&audit, text)
}

// Adds the answer of a check, which has a cap, or of an audit.
fn answer_traced<
    'a,
    F: Field + 'static,
    A: BaseAir<F> + Air<Recorder<F>> + Air<DebugConstraintBuilder<'a, F, F>>,
>(
    alloc: Global,
    call: &str,
    air: &'a A,
    given: &'a Traced<F>,
    text: &mut String,
) -> Result<(), Fault> {
    match given.cap {
        Some(cap) => {
            show_check(
                alloc,
                call,
                air,
                &given.main,
                &given.public_values,
                cap,
                text,
            )
        }
        None if call == "audit_air" => show_audit(alloc, air, given, text),
        None => Err(Fault::Unreadable(Why::NoSuchCall)),
    }
}

/// Adds the answer of a check, which has a cap, or of an audit.
pub fn show_traced<F: Field + 'static>(
    alloc: Global,
    call: &str,
    words: &[&str],
    text: &mut String,
) -> Result<(), Fault> {
    let given: Traced<F> = traced_of(alloc, words)?;
    answer_traced(alloc, call, &Fibonacci::new(), &given, text)
}

// Adds the number of constraints of each kind.
fn show_recorded<F: Field>(recorded: &Recorded<F, F>, text: &mut String) -> Result<(), Fault> {
    let base = recorded.base.len();
    let ext = recorded.ext.len();
    write!(text, "base {base} ext {ext}")?;
    Ok(())
}

// Adds the degree, on 4 rows, of the recording with this layout, by either call.
fn show_degree<F: Field, A: Air<Recorder<F>>>(
    alloc: Global,
    call: &str,
    air: &A,
    layout: AirLayout,
    text: &mut String,
) -> Result<(), Fault> {
    let degree = match call {
        "get_max_constraint_degree" => {
            get_max_constraint_degree::<F, A>(alloc, air, layout, 4, 0)?
        }
        "get_max_constraint_degree_extension" => {
            get_max_constraint_degree_extension::<F, F, A>(alloc, air, layout, 4, 0)?
        }
        _ => return Err(Fault::Unreadable(Why::NoSuchCall)),
    };
    write!(text, "{degree}")?;
    Ok(())
}

// Adds the answer for a recording with this layout: the number of constraints, their indices, or their degree on 4
// rows.
fn show_by_layout<F: Field, A: Air<Recorder<F>>>(
    alloc: Global,
    call: &str,
    air: &A,
    layout: AirLayout,
    text: &mut String,
) -> Result<(), Fault> {
    let recorded = match call {
        "get_symbolic_constraints" => get_symbolic_constraints::<F, A>(alloc, air, layout)?,
        "get_symbolic_constraints_extension" => {
            get_symbolic_constraints_extension::<F, F, A>(alloc, air, layout)?
        }
        "get_all_symbolic_constraints" => {
            get_all_symbolic_constraints::<F, F, A>(alloc, air, layout)?
        }
        "get_constraint_layout" => {
            let places = get_constraint_layout::<F, F, A>(alloc, air, layout)?;
            return show_layout(&places, text);
        }
        _ => return show_degree::<F, A>(alloc, call, air, layout, text),
    };
    show_recorded(&recorded, text)
}

/// Adds the answer for a recording of Fibonacci with this layout.
pub fn show_recording<F: Field>(
    alloc: Global,
    call: &str,
    layout: AirLayout,
    text: &mut String,
) -> Result<(), Fault> {
    show_by_layout::<F, Fibonacci>(alloc, call, &Fibonacci::new(), layout, text)
}

/// The layout of these counts.
pub fn layout_of(counts: [&str; 4]) -> Result<AirLayout, Fault> {
    let [main_width, public_values, periodic, preprocessed] = counts;
    Ok(AirLayout {
        main_width: count_of(main_width)?,
        num_public_values: count_of(public_values)?,
        num_periodic_columns: count_of(periodic)?,
        preprocessed_width: count_of(preprocessed)?,
        ..AirLayout::default()
    })
}
