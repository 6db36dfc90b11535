//! What is refused of constraints over an extension.
use crate::ext_shown::print_ext_shown;
use p3_air::{
    AirError, BabyBear, BinomialExtensionField as Ext, Claim, Claimed, Draft, Expressions,
    ExtClaimed, ExtConstraints, ExtDraft, ExtEntry, ExtExpressions, ExtStep, Fixed, FlatExtAir,
    Notes, SymbolicVariableExt,
};
use std::alloc::Global;
use std::io;

type Air = Result<FlatExtAir<BabyBear, Ext>, AirError>;

type Extending = ExtExpressions<BabyBear, Ext>;

type Writing<'a> = ExtConstraints<'a, BabyBear, Ext>;

fn foreign_operand(alloc: Global) -> Air {
    let e = Extending::new(alloc);
    let mut c = Writing::new(alloc, &e, 1);
    let other = Extending::new(alloc);
    c.assert_zero_ext(e.permutation(0) + other.permutation(0));
    c.into_air()
}

fn foreign_base(alloc: Global) -> Air {
    let e = Extending::new(alloc);
    let mut c = Writing::new(alloc, &e, 1);
    let other = Expressions::new(alloc);
    c.assert_zero_ext(e.permutation(0) * other.current(0));
    c.into_air()
}

fn foreign_claim(alloc: Global) -> Air {
    let e = Extending::new(alloc);
    let mut c = Writing::new(alloc, &e, 1);
    let other = Extending::new(alloc);
    c.assert_zero_ext(other.permutation(0));
    c.into_air()
}

fn foreign_condition(alloc: Global) -> Air {
    let e = Extending::new(alloc);
    let mut c = Writing::new(alloc, &e, 1);
    let other = Extending::new(alloc);
    c.when(other.current(0)).assert_zero_ext(e.permutation(0));
    c.into_air()
}

// The column past those handed out comes first, and then an expression of other constraints.
fn first_fault(alloc: Global) -> Air {
    let e = Extending::new(alloc);
    let mut c = Writing::new(alloc, &e, 0);
    let other = Extending::new(alloc);
    let columns = c.columns(2);
    c.assert_zero(columns.current(2));
    c.assert_zero_ext(other.permutation(0));
    c.into_air()
}

fn great_degree(alloc: Global) -> Air {
    let e = Extending::new(alloc);
    let mut c = Writing::new(alloc, &e, 1);
    let mut z = e.permutation(0);
    for _ in 0..64 {
        z = z.square();
    }
    c.assert_zero_ext(z);
    c.into_air()
}

// The degree of 2^63 is within, and under a condition of that degree it isn't.
fn great_degree_under(alloc: Global) -> Air {
    let e = Extending::new(alloc);
    let mut c = Writing::new(alloc, &e, 1);
    let (mut z, mut x) = (e.permutation(0), e.current(0));
    for _ in 0..63 {
        z = z.square();
        x = x.square();
    }
    c.when(x).assert_zero_ext(z);
    c.into_air()
}

// A draft of an AIR with one column.
fn empty_draft(alloc: Global) -> Draft<BabyBear> {
    Draft {
        notes: Notes::new(alloc, 1),
        fixed: Fixed::new(alloc),
        steps: Vec::new(alloc),
    }
}

// A draft with one claim of a step over the extension, which it may have.
fn draft_of(alloc: Global, step: ExtStep<BabyBear, Ext>, number: usize) -> Air {
    let mut draft = ExtDraft::new(empty_draft(alloc));
    let _first = draft.step(step);
    draft.base.notes.claim(Claim {
        claimed: Claimed::Extension(ExtClaimed::Zero(number)),
        condition: None,
        label: None,
    });
    draft.into_air()
}

fn column_at(offset: usize) -> ExtStep<BabyBear, Ext> {
    ExtStep::Variable(SymbolicVariableExt::new(ExtEntry::Permutation { offset }, 0))
}

// A claim over an extension in a draft that has none.
fn claim_without_extension(alloc: Global) -> Air {
    let mut draft = empty_draft(alloc);
    draft.notes.claim(Claim {
        claimed: Claimed::Extension(ExtClaimed::Equal(3, 4)),
        condition: None,
        label: None,
    });
    match draft.into_air() {
        Ok(_) => ExtDraft::new(empty_draft(alloc)).into_air(),
        Err(error) => Err(error),
    }
}

/// Prints what is refused.
pub fn print(rt: &HostRuntime) -> io::Result<()> {
    let alloc = rt.alloc();
    print_ext_shown(rt, "foreign extension operand", foreign_operand(alloc))?;
    print_ext_shown(rt, "foreign base operand", foreign_base(alloc))?;
    print_ext_shown(rt, "foreign extension claim", foreign_claim(alloc))?;
    print_ext_shown(rt, "foreign extension condition", foreign_condition(alloc))?;
    print_ext_shown(rt, "the first fault", first_fault(alloc))?;
    print_ext_shown(rt, "great extension degree", great_degree(alloc))?;
    print_ext_shown(
        rt,
        "great degree under a condition",
        great_degree_under(alloc),
    )?;
    print_ext_shown(rt, "a row past the next", draft_of(alloc, column_at(2), 0))?;
    print_ext_shown(rt, "a step that is there", draft_of(alloc, column_at(1), 0))?;
    print_ext_shown(
        rt,
        "a step that isn't there",
        draft_of(alloc, column_at(1), 1),
    )?;
    print_ext_shown(
        rt,
        "a base step that isn't there",
        draft_of(alloc, ExtStep::Lift(0), 0),
    )?;
    print_ext_shown(
        rt,
        "a claim without extension",
        claim_without_extension(alloc),
    )
}
