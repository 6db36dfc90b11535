//! What is refused.
use crate::shown::print_shown;
use p3_air::{AirError, BabyBear, Constraints, Expressions, FlatAir};
use std::alloc::Global;
use std::io;

type Air = Result<FlatAir<BabyBear>, AirError>;

fn foreign_operand(alloc: Global) -> Air {
    let e = Expressions::new(alloc);
    let mut c = Constraints::new(alloc, &e, 2);
    let other = Expressions::new(alloc);
    c.assert_zero(e.current(0) + other.current(0));
    c.into_air()
}

fn foreign_claim(alloc: Global) -> Air {
    let e = Expressions::new(alloc);
    let mut c = Constraints::new(alloc, &e, 2);
    let other = Expressions::new(alloc);
    let _own = e.current(0);
    c.assert_zero(other.current(0));
    c.into_air()
}

fn foreign_condition(alloc: Global) -> Air {
    let e = Expressions::new(alloc);
    let mut c = Constraints::new(alloc, &e, 2);
    let other = Expressions::new(alloc);
    c.when(other.current(0)).assert_zero(e.current(0));
    c.into_air()
}

fn past_columns(alloc: Global) -> Air {
    let e = Expressions::new(alloc);
    let mut c = Constraints::new(alloc, &e, 0);
    let columns = c.columns(2);
    c.assert_zero(columns.current(2));
    c.into_air()
}

fn uneven_lists(alloc: Global) -> Air {
    let e = Expressions::new(alloc);
    let mut c = Constraints::new(alloc, &e, 2);
    c.assert_eq_arrays(&[e.current(0), e.current(1)], &[e.current(0)]);
    c.into_air()
}

fn great_degree(alloc: Global) -> Air {
    let e = Expressions::new(alloc);
    let mut c = Constraints::new(alloc, &e, 1);
    let mut x = e.current(0);
    for _ in 0..64 {
        x = x.square();
    }
    c.assert_zero(x);
    c.into_air()
}

// A fourth power.
fn fitting_degree(alloc: Global) -> Air {
    let e = Expressions::new(alloc);
    let mut c = Constraints::new(alloc, &e, 1);
    let mut x = e.current(0);
    for _ in 0..2 {
        x = x.square();
    }
    c.assert_zero(x);
    c.into_air()
}

/// Prints what is refused.
pub fn print(rt: &HostRuntime) -> io::Result<()> {
    let alloc = rt.alloc();
    print_shown(rt, "foreign operand", foreign_operand(alloc))?;
    print_shown(rt, "foreign claim", foreign_claim(alloc))?;
    print_shown(rt, "foreign condition", foreign_condition(alloc))?;
    print_shown(rt, "past columns", past_columns(alloc))?;
    print_shown(rt, "uneven lists", uneven_lists(alloc))?;
    print_shown(rt, "great degree", great_degree(alloc))?;
    print_shown(rt, "fitting degree", fitting_degree(alloc))
}
