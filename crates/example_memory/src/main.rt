//! A memory log, sorted by address and then by clock: each read returns the last value written.
#![tactic(auto)]

use p3_air::boundary::BoundaryEnd;
use p3_air::{
    AirError, BabyBear, Constraints, Expressions, Field, Fixed, FlatAir, print_audit, trace_of_rows,
};
use std::alloc::Global;
use std::io;

/// A row is an access: a write or a read of a value at an address, at a clock time. While the address stays, the clock
/// increases by 1 to 256; otherwise the address does.
fn memory<F: Field>(alloc: Global) -> Result<FlatAir<F>, AirError> {
    let e = Expressions::new(alloc);
    let mut c = Constraints::new(alloc, &e, 0)
        .with_public_values(1)
        .with_boundary(2, BoundaryEnd::First, 0);
    let (address, clock, value) = (c.column(), c.column(), c.column());
    let (is_write, same, parity) = (c.column(), c.column(), c.column());
    let gap_bits = c.columns(8);

    c.named("write is a bit").assert_bool(is_write.current());
    c.named("same is a bit").assert_bool(same.current());
    c.named("parity").assert_eq(parity.current(), e.periodic(0));
    c.named("gap").assert_bools_in(gap_bits);
    let gap = gap_bits.pack();

    let stays = same.current();
    let moves = 1 - stays;
    let is_read = 1 - is_write.next();
    c.when_transition()
        .when(stays)
        .named("step::address stays")
        .assert_eq(address.next(), address.current());
    c.when_transition()
        .when(stays)
        .named("step::clock rises")
        .assert_eq(clock.next(), clock.current() + gap + 1);
    c.when_transition()
        .when(stays)
        .when(is_read)
        .named("step::read")
        .assert_eq(value.next(), value.current());
    c.when_transition()
        .when(moves)
        .named("step::address rises")
        .assert_eq(address.next(), address.current() + gap + 1);
    c.when_transition()
        .when(moves)
        .named("step::a new address is written")
        .assert_one(is_write.next());
    c.when_last_row().named("end").assert_zero(same.current());
    c.into_air_with(Fixed::new(alloc).with_periodic_numbers(&[0, 1])?)
}

fn main(rt: HostRuntime) -> io::Result<()> {
    let alloc = rt.alloc();
    // Columns: address, clock, value, is_write, same (as the next row's address), parity, the 8 bits of the gap.
    // The write at clock 1 stores 5, so the read at clock 3 must return 5.
    for read in [5, 6] {
        let rows = [
            [7, 1, 5, 1, 1, 0, 1, 0, 0, 0, 0, 0, 0, 0],
            [7, 3, read, 0, 0, 1, 1, 0, 0, 0, 0, 0, 0, 0],
            [9, 2, 8, 1, 1, 0, 0, 1, 0, 0, 0, 0, 0, 0],
            [9, 5, 8, 0, 0, 1, 0, 0, 0, 0, 0, 0, 0, 0],
        ];
        print_audit(
            &rt,
            memory(alloc),
            trace_of_rows(alloc, &rows),
            &[BabyBear::new(5)],
        )?;
    }
    Ok(())
}
