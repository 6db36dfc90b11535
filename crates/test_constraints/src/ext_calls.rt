//! Each call over an extension, as the constraint that it writes.
use crate::ext_shown::print_ext_shown;
use p3_air::boundary::BoundaryEnd;
use p3_air::{
    AirError, BabyBear, BinomialExtensionField as Ext, ExtConstraints, ExtExpressions,
    ExtensionField, Field, Fixed, FlatExtAir, trace_of_rows,
};
use std::alloc::Global;
use std::io;

type Air = Result<FlatExtAir<BabyBear, Ext>, AirError>;

type Extending = ExtExpressions<BabyBear, Ext>;

type Writing<'a> = ExtConstraints<'a, BabyBear, Ext>;

fn operators(alloc: Global) -> Air {
    let e = Extending::new(alloc);
    let mut c = Writing::new(alloc, &e, 1);
    let (z, w, x) = (e.permutation(0), e.permutation(1), e.current(0));
    c.assert_zero_ext(z + w);
    c.assert_zero_ext(z - w);
    c.assert_zero_ext(z * w);
    c.assert_zero_ext(-z);
    c.assert_zero_ext(z + x);
    c.assert_zero_ext(z - x);
    c.assert_zero_ext(z * x);
    c.assert_zero_ext(x + z);
    c.assert_zero_ext(x - z);
    c.assert_zero_ext(x * z);
    c.assert_zero_ext(z + 3);
    c.assert_zero_ext(z - 3);
    c.assert_zero_ext(z * 3);
    c.assert_zero_ext(3 + z);
    c.assert_zero_ext(3 - z);
    c.assert_zero_ext(3 * z);
    c.into_air()
}

fn assigning(alloc: Global) -> Air {
    let e = Extending::new(alloc);
    let mut c = Writing::new(alloc, &e, 1);
    let (z, x) = (e.permutation(0), e.current(0));
    let mut sum = z;
    sum += e.permutation(1);
    c.assert_zero_ext(sum);
    let mut difference = z;
    difference -= e.permutation(1);
    c.assert_zero_ext(difference);
    let mut product = z;
    product *= e.permutation(1);
    c.assert_zero_ext(product);
    let mut sum = z;
    sum += x;
    c.assert_zero_ext(sum);
    let mut difference = z;
    difference -= x;
    c.assert_zero_ext(difference);
    let mut product = z;
    product *= x;
    c.assert_zero_ext(product);
    let mut sum = z;
    sum += 3;
    c.assert_zero_ext(sum);
    let mut difference = z;
    difference -= 3;
    c.assert_zero_ext(difference);
    let mut product = z;
    product *= 3;
    c.assert_zero_ext(product);
    c.into_air()
}

fn powers(alloc: Global) -> Air {
    let e = Extending::new(alloc);
    let mut c = Writing::new(alloc, &e, 1);
    let z = e.permutation(0);
    c.assert_zero_ext(z.double());
    c.assert_zero_ext(z.square());
    c.assert_zero_ext(z.cube());
    c.assert_zero_ext(z.power(0));
    c.assert_zero_ext(z.power(1));
    c.assert_zero_ext(z.power(2));
    c.assert_zero_ext(z.power(4));
    c.into_air()
}

fn leaves(alloc: Global) -> Air {
    let table = trace_of_rows(alloc, &[[7, 8]])?;
    let e = Extending::new(alloc);
    let mut c = Writing::new(alloc, &e, 2)
        .with_public_values(2)
        .with_boundary(1, BoundaryEnd::Last, 1);
    let root = Ext::from_basis_coefficients(&[5, 6, 0, 7].map(BabyBear::new));
    c.assert_zero_ext(e.permutation(2));
    c.assert_zero_ext(e.permutation_next(2));
    c.assert_zero_ext(e.challenge(1));
    c.assert_zero_ext(e.permutation_value(3));
    c.assert_zero_ext(e.ext_constant(root));
    c.assert_zero_ext(e.lift(e.current(1)));
    c.assert_zero_ext(e.lift(e.preprocessed_next(1)));
    c.assert_zero_ext(e.lift(e.periodic(0)));
    c.assert_zero_ext(e.lift(e.public(1)));
    let mut fixed = Fixed::new(alloc)
        .with_preprocessed(table)
        .with_periodic_numbers(&[0, 1])?
        .with_periodic(Vec::new(alloc))?;
    let two = e.constant(&mut fixed, BabyBear::TWO);
    c.assert_zero_ext(e.lift(two));
    let last = c.column();
    c.assert_zero_ext(e.lift(last.next() + 1));
    c.into_air_with(fixed)
}

fn assertions(alloc: Global) -> Air {
    let e = Extending::new(alloc);
    let mut c = Writing::new(alloc, &e, 2);
    let (z, w) = (e.permutation(0), e.permutation(1));
    let (x, y) = (e.current(0), e.current(1));
    c.assert_zero_ext(z);
    c.assert_zero(x);
    c.assert_one_ext(z);
    c.assert_one(x);
    c.assert_eq_ext(z, w);
    c.assert_eq(x, y);
    c.assert_zeros_ext(&[w, z]);
    c.assert_bool(y);
    c.everywhere().assert_zero_ext(w);
    c.into_air()
}

fn conditions(alloc: Global) -> Air {
    let e = Extending::new(alloc);
    let mut c = Writing::new(alloc, &e, 2);
    let (z, w) = (e.permutation(0), e.permutation(1));
    let (x, y) = (e.current(0), e.current(1));
    c.when(x).assert_zero_ext(z);
    c.when_ne(x, y).assert_one_ext(z);
    c.when_first_row().assert_eq_ext(z, w);
    c.when_last_row().assert_zero_ext(z);
    c.when_transition().assert_zero_ext(z);
    c.when(x).when(y).assert_zero_ext(z);
    c.when(x).when(y).assert_zero(e.next(0));
    c.when(x).when_ne(x, y).assert_zero_ext(z);
    c.when(x).when_first_row().assert_zero_ext(z);
    c.when(x).when_last_row().assert_zero_ext(z);
    c.when(x).when_transition().assert_zero_ext(z);
    let mut both = c.when(x);
    both.assert_zero(y);
    both.assert_zero_ext(w);
    drop(both);
    c.into_air()
}

fn labels(alloc: Global) -> Air {
    let e = Extending::new(alloc);
    let mut c = Writing::new(alloc, &e, 1);
    let (z, w) = (e.permutation(0), e.permutation(1));
    let mut all = c.named("all");
    all.assert_zero_ext(z);
    drop(all);
    c.named("all").named("one").assert_one_ext(z);
    c.named("all").at(7).assert_zero(e.current(0));
    c.assert_zero_ext(w);
    c.when_first_row().named("first").assert_zero_ext(z);
    c.named("zeros").assert_zeros_ext(&[z, w]);
    c.into_air()
}

/// Prints what each call writes.
pub fn print(rt: &HostRuntime) -> io::Result<()> {
    let alloc = rt.alloc();
    print_ext_shown(rt, "extension operators", operators(alloc))?;
    print_ext_shown(rt, "extension assigning", assigning(alloc))?;
    print_ext_shown(rt, "extension powers", powers(alloc))?;
    print_ext_shown(rt, "extension leaves", leaves(alloc))?;
    print_ext_shown(rt, "extension assertions", assertions(alloc))?;
    print_ext_shown(rt, "extension conditions", conditions(alloc))?;
    print_ext_shown(rt, "extension labels", labels(alloc))
}
