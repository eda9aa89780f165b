//! The library and the driver, by an example each.
#![tactic(auto)]

mod arrival;
mod lost_interrupt;

use anyhow::Result;

fn main(rt: HostRuntime) -> Result<()> {
    lost_interrupt::show(&rt)?;
    arrival::show(&rt)
}
