//! Each call, as the constraint that it writes.
use crate::shown::print_shown;
use p3_air::boundary::BoundaryEnd;
use p3_air::{AirError, BabyBear, Constraints, Expressions, Field, Fixed, FlatAir, trace_of_rows};
use std::alloc::Global;
use std::io;

type Air = Result<FlatAir<BabyBear>, AirError>;

fn operators(alloc: Global) -> Air {
    let e = Expressions::new(alloc);
    let mut c = Constraints::new(alloc, &e, 2);
    let (x, y) = (e.current(0), e.current(1));
    c.assert_zero(x + y);
    c.assert_zero(x + 3);
    c.assert_zero(3 + x);
    c.assert_zero(x - y);
    c.assert_zero(x - 3);
    c.assert_zero(3 - x);
    c.assert_zero(x * y);
    c.assert_zero(x * 3);
    c.assert_zero(3 * x);
    c.assert_zero(-x);
    c.into_air()
}

fn assigning(alloc: Global) -> Air {
    let e = Expressions::new(alloc);
    let mut c = Constraints::new(alloc, &e, 2);
    let mut sum = e.current(0);
    sum += e.current(1);
    c.assert_zero(sum);
    let mut difference = e.current(0);
    difference -= e.current(1);
    c.assert_zero(difference);
    let mut product = e.current(0);
    product *= e.current(1);
    c.assert_zero(product);
    c.into_air()
}

fn powers(alloc: Global) -> Air {
    let e = Expressions::new(alloc);
    let mut c = Constraints::new(alloc, &e, 6);
    c.assert_zero(e.current(0).double());
    c.assert_zero(e.current(1).square());
    c.assert_zero(e.current(2).cube());
    c.assert_zero(e.current(3).power(0));
    c.assert_zero(e.current(3).power(1));
    c.assert_zero(e.current(3).power(2));
    c.assert_zero(e.current(4).power(4));
    c.into_air()
}

fn bits(alloc: Global) -> Air {
    let e = Expressions::new(alloc);
    let mut c = Constraints::new(alloc, &e, 6);
    c.assert_zero(e.current(0).xor(e.current(1)));
    c.assert_zero(e.current(0).andn(e.current(1)));
    c.assert_zero(e.pack(&[e.current(2), e.current(3), e.current(4)]));
    c.assert_zero(e.pack(&[]));
    c.assert_zero(e.sum(&[e.current(2), e.current(3), e.current(4)]));
    c.assert_zero(e.sum(&[]));
    c.assert_zero(e.product(&[e.current(2), e.current(3), e.current(4)]));
    c.assert_zero(e.product(&[]));
    c.into_air()
}

fn leaves(alloc: Global) -> Air {
    let table = trace_of_rows(alloc, &[[7, 8]])?;
    let e = Expressions::new(alloc);
    let mut c = Constraints::new(alloc, &e, 2)
        .with_public_values(2)
        .with_boundary(1, BoundaryEnd::Last, 1);
    c.assert_zero(e.current(1));
    c.assert_zero(e.next(1));
    c.assert_zero(e.main().current(0));
    c.assert_zero(e.main().next(0));
    c.assert_zero(e.preprocessed_current(1));
    c.assert_zero(e.preprocessed_next(1));
    c.assert_zero(e.preprocessed().current(0));
    c.assert_zero(e.preprocessed().next(0));
    c.assert_zero(e.periodic(0));
    c.assert_zero(e.public(1));
    c.assert_zero(e.is_first_row());
    c.assert_zero(e.is_last_row());
    c.assert_zero(e.is_transition());
    let mut fixed = Fixed::new(alloc)
        .with_preprocessed(table)
        .with_periodic_numbers(&[0, 1])?;
    let two = e.constant(&mut fixed, BabyBear::TWO);
    c.assert_zero(two);
    c.assert_zero(e.number(2013265926));
    c.into_air_with(fixed)
}

fn columns(alloc: Global) -> Air {
    let e = Expressions::new(alloc);
    let mut c = Constraints::new(alloc, &e, 1);
    let x = c.column();
    let more = c.columns(3);
    c.assert_eq(x.current(), x.next());
    c.assert_eq(more.current(0), more.next(2));
    let last = c.column();
    c.assert_eq(more.column(1).current(), last.next());
    c.into_air()
}

fn bits_in_columns(alloc: Global) -> Air {
    let e = Expressions::new(alloc);
    let mut c = Constraints::new(alloc, &e, 1);
    let bits = c.columns(2);
    c.named("bit").assert_bools_in(bits);
    c.when_first_row().assert_bits_in(e.current(0), bits);
    let none = c.columns(0);
    c.assert_zero(none.pack());
    c.into_air()
}

fn assertions(alloc: Global) -> Air {
    let e = Expressions::new(alloc);
    let mut c = Constraints::new(alloc, &e, 4);
    c.assert_zero(e.current(0));
    c.assert_one(e.current(0));
    c.assert_bool(e.current(1));
    c.assert_eq(e.current(0), e.current(2));
    c.assert_zeros(&[e.current(1), e.current(2)]);
    c.assert_bools(&[e.current(2), e.current(3)]);
    c.assert_eq_arrays(&[e.current(1), e.current(1)], &[e.current(2), e.current(3)]);
    c.into_air()
}

fn conditions(alloc: Global) -> Air {
    let e = Expressions::new(alloc);
    let mut c = Constraints::new(alloc, &e, 3);
    let (x, y, z) = (e.current(0), e.current(1), e.current(2));
    c.when(x).assert_zero(z);
    c.when_ne(x, y).assert_zero(z);
    c.when_first_row().assert_zero(x);
    c.when_last_row().assert_zero(x);
    c.when_transition().assert_zero(x);
    c.when(x).when(y).assert_one(z);
    c.when(y).when_ne(y, z).assert_zero(x);
    c.when(y).when_first_row().assert_zero(x);
    c.when(y).when_last_row().assert_zero(x);
    c.when(y).when_transition().assert_bool(x);
    c.everywhere().assert_eq(x, z);
    c.into_air()
}

fn labels(alloc: Global) -> Air {
    let e = Expressions::new(alloc);
    let mut c = Constraints::new(alloc, &e, 3);
    let (x, y, z) = (e.current(0), e.current(1), e.current(2));
    let mut all = c.named("all");
    all.assert_zero(x);
    drop(all);
    c.named("all").named("one").assert_one(x);
    c.named("all").at(7).assert_bool(x);
    c.assert_zero(y);
    c.when_first_row().named("first").when(y).assert_zero(z);
    c.named("zeros").assert_zeros(&[y, z]);
    c.named("bools").assert_bools(&[y, z]);
    c.named("equal").assert_eq_arrays(&[x, y], &[y, z]);
    c.everywhere().at(3).assert_zero(z);
    c.into_air()
}

fn words(alloc: Global) -> Air {
    let e = Expressions::new(alloc);
    let mut c = Constraints::new(alloc, &e, 8);
    let (a, b) = ([e.current(0), e.current(1)], [e.current(2), e.current(3)]);
    let (x, y) = ([e.current(4), e.current(5)], [e.current(6), e.current(7)]);
    c.everywhere().assert_add2(a, b, x);
    c.when_first_row().assert_add3(a, b, x, y);
    c.into_air()
}

fn numbers_by_bits(alloc: Global) -> Air {
    let e = Expressions::new(alloc);
    let mut c = Constraints::new(alloc, &e, 3);
    c.assert_bits(e.current(0), &[e.current(1), e.current(2)]);
    c.when_first_row()
        .named("bits")
        .assert_bits(e.current(0), &[e.current(1)]);
    c.into_air()
}

// Of the xor with a rotated word: the first bit that is claimed to be one, and the first half, of two bits that differ.
fn xors(alloc: Global) -> Air {
    let e = Expressions::new(alloc);
    let mut c = Constraints::new(alloc, &e, 66);
    let mut b = [e.number(0); 32];
    b[1] = e.current(0);
    let mut rotated = [e.number(0); 32];
    rotated[31] = e.current(1);
    c.everywhere()
        .assert_xor_32_shift([e.current(2), e.current(3)], &b, &rotated, 3);
    c.into_air()
}

/// Prints what each call writes.
pub fn print(rt: &HostRuntime) -> io::Result<()> {
    let alloc = rt.alloc();
    print_shown(rt, "operators", operators(alloc))?;
    print_shown(rt, "assigning", assigning(alloc))?;
    print_shown(rt, "powers", powers(alloc))?;
    print_shown(rt, "bits", bits(alloc))?;
    print_shown(rt, "leaves", leaves(alloc))?;
    print_shown(rt, "columns", columns(alloc))?;
    print_shown(rt, "bits in columns", bits_in_columns(alloc))?;
    print_shown(rt, "assertions", assertions(alloc))?;
    print_shown(rt, "conditions", conditions(alloc))?;
    print_shown(rt, "labels", labels(alloc))?;
    print_shown(rt, "words", words(alloc))?;
    print_shown(rt, "numbers by bits", numbers_by_bits(alloc))?;
    print_shown(rt, "xors", xors(alloc))
}
