//! What each call of an AIR in code alone writes down, as people read it, AIRs as objects, and random programs beside the
//! pool's own calls.
#![tactic(auto)]

mod calls;
mod exports;
mod ext_calls;
mod ext_product;
mod ext_refusals;
mod ext_shown;
mod listed;
mod random;
mod refusals;
mod shown;

use std::io;

fn main(rt: HostRuntime) -> io::Result<()> {
    calls::print(&rt)?;
    refusals::print(&rt)?;
    ext_calls::print(&rt)?;
    ext_product::print(&rt)?;
    ext_refusals::print(&rt)?;
    exports::print(&rt)?;
    listed::print(&rt)?;
    random::print(&rt)
}
