//! Poseidon2 as an AIR: each row is one permutation.
use crate::constants::{DIAGONAL, EXTERNAL, INTERNAL};
use p3_air::{AirError, BabyBear, Constraints, Expr, Expressions, FlatAir};
use std::alloc::Global;

type Element<'a> = Expr<'a>;

type Four<'a> = [Element<'a>; 4];

type State<'a> = (Four<'a>, Four<'a>, Four<'a>, Four<'a>);

fn add_four<'a>(x: Four<'a>, y: Four<'a>) -> Four<'a> {
    let [a, b, c, d] = x;
    let [e, f, g, h] = y;
    [a + e, b + f, c + g, d + h]
}

fn sum_of<'a>(x: Four<'a>) -> Element<'a> {
    let [a, b, c, d] = x;
    a + b + c + d
}

// Multiplies four elements by the 4x4 matrix.
fn mix_four<'a>(x: Four<'a>) -> Four<'a> {
    let sum = sum_of(x);
    let [a, b, c, d] = x;
    [
        sum + a + b.double(),
        sum + b + c.double(),
        sum + c + d.double(),
        sum + d + a.double(),
    ]
}

/// Multiplies by the matrix of the external rounds.
fn external_layer<'a>(state: State<'a>) -> State<'a> {
    let (w, x, y, z) = state;
    let (w, x, y, z) = (mix_four(w), mix_four(x), mix_four(y), mix_four(z));
    let sums = add_four(add_four(w, x), add_four(y, z));
    (
        add_four(w, sums),
        add_four(x, sums),
        add_four(y, sums),
        add_four(z, sums),
    )
}

// Multiplies each element by its factor and adds the sum.
fn scaled<'a>(sum: Element<'a>, x: Four<'a>, factors: [u64; 4]) -> Four<'a> {
    let [a, b, c, d] = x;
    [
        sum + a * factors[0],
        sum + b * factors[1],
        sum + c * factors[2],
        sum + d * factors[3],
    ]
}

/// Multiplies by the matrix of the internal rounds.
fn internal_layer<'a>(state: State<'a>) -> State<'a> {
    let (w, x, y, z) = state;
    let sum = sum_of(w) + sum_of(x) + sum_of(y) + sum_of(z);
    (
        scaled(sum, w, DIAGONAL[0]),
        scaled(sum, x, DIAGONAL[1]),
        scaled(sum, y, DIAGONAL[2]),
        scaled(sum, z, DIAGONAL[3]),
    )
}

/// x^7. One new column holds x^3 and another x^7.
fn s_box<'a>(c: &mut Constraints<'a>, x: Element<'a>) -> Element<'a> {
    let cube = c.column().current();
    let seventh = c.column().current();
    c.assert_eq(cube, x.cube());
    c.assert_eq(seventh, cube.square() * x);
    seventh
}

fn s_boxes<'a>(c: &mut Constraints<'a>, x: Four<'a>, constants: [u64; 4]) -> Four<'a> {
    let [x0, x1, x2, x3] = x;
    [
        s_box(c, x0 + constants[0]),
        s_box(c, x1 + constants[1]),
        s_box(c, x2 + constants[2]),
        s_box(c, x3 + constants[3]),
    ]
}

fn external_round<'a>(
    c: &mut Constraints<'a>,
    state: State<'a>,
    constants: &[[u64; 4]; 4],
) -> State<'a> {
    let (w, x, y, z) = state;
    external_layer((
        s_boxes(c, w, constants[0]),
        s_boxes(c, x, constants[1]),
        s_boxes(c, y, constants[2]),
        s_boxes(c, z, constants[3]),
    ))
}

fn internal_round<'a>(c: &mut Constraints<'a>, state: State<'a>, constant: u64) -> State<'a> {
    let (w, x, y, z) = state;
    let [w0, w1, w2, w3] = w;
    internal_layer(([s_box(c, w0 + constant), w1, w2, w3], x, y, z))
}

// Adds four columns.
fn four<'a>(c: &mut Constraints<'a>) -> Four<'a> {
    let x = c.columns(4);
    [x.current(0), x.current(1), x.current(2), x.current(3)]
}

// Adds four columns and asserts that they hold the elements.
fn assert_in_columns<'a>(c: &mut Constraints<'a>, index: usize, elements: Four<'a>) {
    let columns = four(c);
    c.named("output")
        .at(index)
        .assert_eq_arrays(&columns, &elements);
}

/// A row holds the input, x^3 and x^7 of each S-box, and the output: 314 columns, degree 3.
pub fn poseidon(alloc: Global) -> Result<FlatAir<BabyBear>, AirError> {
    let e = Expressions::new(alloc);
    let mut c = Constraints::new(alloc, &e, 0);
    let input = (four(&mut c), four(&mut c), four(&mut c), four(&mut c));
    let mut state = external_layer(input);
    for constants in &EXTERNAL[..4] {
        state = external_round(&mut c, state, constants);
    }
    for constant in &INTERNAL {
        state = internal_round(&mut c, state, *constant);
    }
    for constants in &EXTERNAL[4..] {
        state = external_round(&mut c, state, constants);
    }
    let (w, x, y, z) = state;
    assert_in_columns(&mut c, 0, w);
    assert_in_columns(&mut c, 1, x);
    assert_in_columns(&mut c, 2, y);
    assert_in_columns(&mut c, 3, z);
    c.into_air()
}
