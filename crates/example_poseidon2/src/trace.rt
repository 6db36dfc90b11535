//! A trace of permutations.
use crate::constants::{DIAGONAL, EXTERNAL, INTERNAL};
use p3_air::{AirError, BabyBear, Field, RowMajorMatrix, TraceRows};
use std::alloc::Global;

type Four = [BabyBear; 4];

/// Four groups of four elements.
type State = (Four, Four, Four, Four);

fn add_four(x: Four, y: Four) -> Four {
    let [a, b, c, d] = x;
    let [e, f, g, h] = y;
    [a.add(e), b.add(f), c.add(g), d.add(h)]
}

fn sum_of(x: Four) -> BabyBear {
    let [a, b, c, d] = x;
    a.add(b).add(c).add(d)
}

fn mix_four(x: Four) -> Four {
    let sum = sum_of(x);
    let [a, b, c, d] = x;
    [
        sum.add(a).add(b).add(b),
        sum.add(b).add(c).add(c),
        sum.add(c).add(d).add(d),
        sum.add(d).add(a).add(a),
    ]
}

fn external_layer(state: State) -> State {
    let (w, x, y, z) = state;
    let (w, x, y, z) = (mix_four(w), mix_four(x), mix_four(y), mix_four(z));
    let sums = add_four(add_four(w, x), add_four(y, z));
    (
        add_four(w, sums),
        add_four(x, sums),
        add_four(y, sums),
        add_four(z, sums),
    )
}

fn scaled_by(sum: BabyBear, x: BabyBear, factor: u64) -> BabyBear {
    sum.add(x.mul(BabyBear::from_u64(factor)))
}

fn scaled(sum: BabyBear, x: Four, factors: [u64; 4]) -> Four {
    let [a, b, c, d] = x;
    [
        scaled_by(sum, a, factors[0]),
        scaled_by(sum, b, factors[1]),
        scaled_by(sum, c, factors[2]),
        scaled_by(sum, d, factors[3]),
    ]
}

fn internal_layer(state: State) -> State {
    let (w, x, y, z) = state;
    let sum = sum_of(w).add(sum_of(x)).add(sum_of(y)).add(sum_of(z));
    (
        scaled(sum, w, DIAGONAL[0]),
        scaled(sum, x, DIAGONAL[1]),
        scaled(sum, y, DIAGONAL[2]),
        scaled(sum, z, DIAGONAL[3]),
    )
}

// (x + n)^7; pushes the cube and the seventh power to the row.
fn s_box(row: &mut Vec<BabyBear>, x: BabyBear, n: u64) -> Result<BabyBear, AirError> {
    let x = x.add(BabyBear::from_u64(n));
    let cube = x.mul(x).mul(x);
    let seventh = cube.mul(cube).mul(x);
    row.push(cube)?;
    row.push(seventh)?;
    Ok(seventh)
}

fn s_boxes(row: &mut Vec<BabyBear>, x: Four, constants: [u64; 4]) -> Result<Four, AirError> {
    let [a, b, c, d] = x;
    let a = s_box(row, a, constants[0])?;
    let b = s_box(row, b, constants[1])?;
    let c = s_box(row, c, constants[2])?;
    let d = s_box(row, d, constants[3])?;
    Ok([a, b, c, d])
}

fn external_round(
    row: &mut Vec<BabyBear>,
    state: State,
    constants: &[[u64; 4]; 4],
) -> Result<State, AirError> {
    let (w, x, y, z) = state;
    let w = s_boxes(row, w, constants[0])?;
    let x = s_boxes(row, x, constants[1])?;
    let y = s_boxes(row, y, constants[2])?;
    let z = s_boxes(row, z, constants[3])?;
    Ok(external_layer((w, x, y, z)))
}

fn internal_round(row: &mut Vec<BabyBear>, state: State, constant: u64) -> Result<State, AirError> {
    let (w, x, y, z) = state;
    let [w0, w1, w2, w3] = w;
    let w0 = s_box(row, w0, constant)?;
    Ok(internal_layer(([w0, w1, w2, w3], x, y, z)))
}

fn push_state(row: &mut Vec<BabyBear>, state: State) -> Result<(), AirError> {
    let (w, x, y, z) = state;
    row.extend_from_slice(&w)?;
    row.extend_from_slice(&x)?;
    row.extend_from_slice(&y)?;
    row.extend_from_slice(&z)?;
    Ok(())
}

/// The column where the output begins.
pub const OUTPUT: usize = 298;

// Pushes the row of one permutation.
fn push_permutation(row: &mut Vec<BabyBear>, input: State) -> Result<(), AirError> {
    push_state(row, input)?;
    let mut state = external_layer(input);
    for constants in &EXTERNAL[..4] {
        state = external_round(row, state, constants)?;
    }
    for constant in &INTERNAL {
        state = internal_round(row, state, *constant)?;
    }
    for constants in &EXTERNAL[4..] {
        state = external_round(row, state, constants)?;
    }
    push_state(row, state)
}

fn four_from(n: u64) -> Four {
    let x = BabyBear::from_u64(n);
    let one = BabyBear::ONE;
    let two = one.add(one);
    [x, x.add(one), x.add(two), x.add(two).add(one)]
}

// The elements n to n + 15.
fn numbers_from(n: u64) -> State {
    (
        four_from(n),
        four_from(n.wrapping_add(4)),
        four_from(n.wrapping_add(8)),
        four_from(n.wrapping_add(12)),
    )
}

/// The row for the input n to n + 15. In a wrong row the first output is one too great.
pub fn row_from(alloc: Global, n: u64, is_wrong: bool) -> Result<Vec<BabyBear>, AirError> {
    let mut row = Vec::new(alloc);
    push_permutation(&mut row, numbers_from(n))?;
    if is_wrong {
        if let Some(cell) = row.get_mut(OUTPUT) {
            *cell = cell.add(BabyBear::ONE);
        }
    }
    Ok(row)
}

/// The permutations of four inputs; row `wrong`, if given, is wrong.
pub fn trace(alloc: Global, wrong: Option<u64>) -> Result<RowMajorMatrix<BabyBear>, AirError> {
    let mut rows = TraceRows::new(alloc, 314);
    for n in 0..4 {
        let row = row_from(alloc, n, wrong == Some(n))?;
        rows.push(&row)?;
    }
    rows.into_trace()
}
