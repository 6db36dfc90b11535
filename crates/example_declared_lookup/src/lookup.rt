//! Lookups in a table of numbers and their squares.
ghost use Rattle.std.specs.Prelude.{◌≡◌, map, Some, IfOk};
ghost use Rattle.p3_air.specs.Ring.{image};
ghost use Rattle.example_declared_lookup.specs.Lookup.{squares, of_table, counted, lookup, count_at_end};

use p3_air::author::*;
use p3_air::boundary::BoundaryEnd;
use p3_air::{Air, BaseAir, BoundaryPublic, NamedAirBuilder, RowMajorMatrix, trace_of_rows};
use std::alloc::Global;

#[derive(Clone, Copy)]
struct LookupColumns {
    number: usize,
    square: usize,
    selector: usize,
    count: usize,
}

const COLUMNS: LookupColumns = LookupColumns {
    number: 0,
    square: 1,
    selector: 2,
    count: 3,
};

const SQUARES: [[u64; 2]; 8] = [
    [0, 0],
    [1, 1],
    [2, 4],
    [3, 9],
    [4, 16],
    [5, 25],
    [6, 36],
    [7, 49],
];

/// Each selected row equals the preprocessed row. The selected rows are counted; the last count is public value 0.
#[derive(Drop)]
pub struct Lookup<F> {
    pub table: RowMajorMatrix<F>,
    /// One periodic column: one where a row may be selected.
    pub turns: Vec<Vec<F>>,
}

impl<F: Field> Lookup<F> {
    /// Lookups in the table of squares; the periodic columns are `turns`.
    pub fn new(alloc: Global, turns: Vec<Vec<F>>) -> Result<Self, AirError>
        ensures table { IfOk result (λ a. a.table
            ≡ record { width = 2; rows = map (map (image F.ring)) squares }) }
        ensures turns { IfOk result (λ a. a.turns ≡ turns) }
    {
        let table = trace_of_rows(alloc, &SQUARES)?;
        Ok(Lookup { table, turns })
    }
}

/// The number and its square equal the preprocessed row.
#[derive(Clone, Copy, Drop)]
struct OfTable {}

impl<AB: NamedAirBuilder> Constraint<AB> for OfTable {
    ghost asserts = { λ _ f _. of_table f };

    #[tactic(auto, unfolding(crate::specs::Lookup::of_table))]
    fn assert_under<K: Condition<AB>>(
        &self,
        builder: &mut AB,
        condition: &K,
    ) -> Result<(), AirError> {
        let LookupColumns { number, square, .. } = COLUMNS;
        let constraints = (
            Named(
                "table::number",
                current(number).equals(preprocessed_current(0)),
            ),
            Named(
                "table::square",
                current(square).equals(preprocessed_current(1)),
            ),
        );
        constraints.assert_under(builder, condition)
    }
}

/// The count starts at the first row's selector, and increases by the next row's selector.
#[derive(Clone, Copy, Drop)]
struct Counted {}

impl<AB: NamedAirBuilder> Constraint<AB> for Counted {
    ghost asserts = { λ _ f _. counted f };

    #[tactic(auto, unfolding(crate::specs::Lookup::counted))]
    fn assert_under<K: Condition<AB>>(
        &self,
        builder: &mut AB,
        condition: &K,
    ) -> Result<(), AirError> {
        let LookupColumns {
            selector,
            count,
            ..
        } = COLUMNS;
        let begins = current(count).equals(current(selector));
        let rises = next(count).equals(current(count) + next(selector));
        let constraints = (
            When(FirstRow, Named("count::begins", begins)),
            When(Transition, Named("count::rises", rises)),
        );
        constraints.assert_under(builder, condition)
    }
}

impl<F: Field> BaseAir<F> for Lookup<F> {
    ghost declaration = { λ a. record {
      constraints = lookup F.ring;
      width = 4;
      num_public_values = 1;
      preprocessed = Some a.table;
      periodic = a.turns.items;
      cells = count_at_end;
    } };

    fn width(&self) -> usize {
        4
    }

    fn num_public_values(&self) -> usize {
        1
    }

    fn preprocessed_trace(&self) -> Option<&RowMajorMatrix<F>> {
        Some(&self.table)
    }

    fn periodic_columns(&self) -> &[Vec<F>] {
        &self.turns
    }

    fn public_boundary_io(&self) -> &[BoundaryPublic] {
        &[BoundaryPublic {
            column: 3,
            end: BoundaryEnd::Last,
            public_value: 0,
        }]
    }
}

impl<AB: NamedAirBuilder> Air<AB> for Lookup<AB::F> {
    fn eval(&self, builder: &mut AB) -> Result<(), AirError> {
        let LookupColumns { selector, .. } = COLUMNS;
        let turn = current(selector) * (number(1) - periodic(0));
        let constraints = (
            Named("selector is a bit", Boolean(current(selector))),
            When(current(selector), OfTable {}),
            Counted {},
            Named("turn", Zero(turn)),
        );
        assert_all(builder, &constraints)
    }
}
