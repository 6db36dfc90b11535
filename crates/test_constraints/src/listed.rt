//! The step that an expression's call wrote, found in the draft of constraints.
use p3_air::{AirError, BabyBear, Constraints, Expressions, Fixed, Step};
use std::alloc::Global;
use std::io;

/// The step of a sum of two columns.
fn step_of_a_sum(alloc: Global) -> Result<Option<Step>, AirError> {
    let e = Expressions::new(alloc);
    let c = Constraints::new(alloc, &e, 2);
    let sum = e.current(0) + e.current(1);
    let (_draft, listing) = c.into_listed(Fixed::<BabyBear>::new(alloc))?;
    Ok(listing.get(sum))
}

/// Prints the step.
pub fn print(rt: &HostRuntime) -> io::Result<()> {
    println!(rt; "== the step of a sum")?;
    match step_of_a_sum(rt.alloc()) {
        Ok(Some(step)) => println!(rt; "{step:?}"),
        Ok(None) => println!(rt; "none"),
        Err(error) => println!(rt; "refused: {error}"),
    }
}
