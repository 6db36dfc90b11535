//! An AIR whose `eval` calls the builder directly, under a condition that is a difference.
ghost use Rattle.std.specs.Prelude.{OnOk, IfOk, IfErr, []};
ghost use Rattle.air_field.specs.Term.{main};
ghost use Rattle.air_builder.specs.Batches.{AssertedAllIn, Evaluates};
ghost use Rattle.air_builder.specs.Builders.{MeansIn};
ghost use Rattle.air_builder.specs.Notation.{current};
ghost use Rattle.air_builder.specs.Refusals.{NoneMissing};
ghost use Rattle.test_airs.specs.Differing.{differing_asserts, RowMeans, RefusesPart};

use air_audit::{AirBuilder, AirError, Algebra, BaseEntry, FromVar, View};

/// The values of columns 0, 1 and 2 at a row.
#[derive(Clone, Copy)]
struct Row<E> {
    x: E,
    y: E,
    z: E,
}

/// The value of a column at the current row. If the column is missing, the error names it.
fn read_cell<AB: AirBuilder>(builder: &mut AB, column: usize) -> Result<AB::Expr, AirError>
    requires { AB.ready builder.old }
    ensures keeps { AB.grew builder.old builder.new [] }
    ensures made { IfOk result (λ x. MeansIn ⟦<AB as View>⟧.view builder.new x (current column)) }
    ensures there { OnOk result (AB.missing builder.old (main 0 column) → ⊥) }
    ensures refused { IfErr result (RefusesPart AB.refuses builder.old
        (current column)) }
{
    let Some(variable) = builder.main_variable(0, column) else {
        return Err(AirError::MissingEntry {
            entry: BaseEntry::Main { offset: 0 },
            index: column,
        });
    };
    let x = builder.ring().from_var(variable)?;
    Ok(x)
}

fn read_row<AB: AirBuilder>(builder: &mut AB) -> Result<Row<AB::Expr>, AirError>
    requires { AB.ready builder.old }
    ensures keeps { AB.grew builder.old builder.new [] }
    ensures made { IfOk result (λ row. RowMeans
        (MeansIn ⟦<AB as View>⟧.view builder.new) row.x row.y row.z) }
    ensures there { OnOk result (NoneMissing (AB.missing builder.old)
        (differing_asserts AB.F.ONE)) }
    ensures refused { IfErr result (λ e. AB.refuses builder.old e (differing_asserts AB.F.ONE)) }
{
    let x = read_cell(builder, 0)?;
    let y = read_cell(builder, 1)?;
    let z = read_cell(builder, 2)?;
    Ok(Row { x, y, z })
}

fn assert_row<AB: AirBuilder>(builder: &mut AB, row: Row<AB::Expr>) -> Result<(), AirError>
    requires ready { AB.ready builder.old }
    requires means { RowMeans (MeansIn ⟦<AB as View>⟧.view builder.old) row.x row.y row.z }
    ensures { AssertedAllIn ⟦<AB as View>⟧.view builder.old builder.new result
        (differing_asserts AB.F.ONE) }
{
    let condition = builder.difference(row.y, row.z)?;
    let mut filter = builder.when(condition)?;
    filter.assert_bool(row.x)?;
    filter.assert_eq(row.x, row.y)?;
    Ok(())
}

/// Columns x, y and z: where y and z differ, x is a bit and equals y.
pub fn assert_differing<AB: AirBuilder>(builder: &mut AB) -> Result<(), AirError>
    requires { AB.ready builder.old }
    ensures { Evaluates ⟦<AB as View>⟧.view builder.old builder.new result
        (differing_asserts AB.F.ONE) }
{
    let row = read_row(builder)?;
    assert_row(builder, row)
}
