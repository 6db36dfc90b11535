//! AIRs with a declared list in four forms: a family of constraints by index, one AIR inside another, constraints over the
//! extension, and a list that is recorded.
#![tactic(auto)]

mod counter;
mod counters;
mod multiples;
mod product;
mod recorded;

use std::io;

fn main(rt: HostRuntime) -> io::Result<()> {
    println!(rt; "multiples")?;
    multiples::print(&rt)?;
    println!(rt; "two counters")?;
    counters::print(&rt)?;
    println!(rt; "product")?;
    product::print(&rt)?;
    println!(rt; "recorded")?;
    recorded::print(&rt)
}
