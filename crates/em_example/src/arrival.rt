//! A frame that arrives inside of a driver's call, and the call taken back: the driver by an example.
ghost use Rattle.std.specs.Prelude.{◌≤◌, IfOk};
ghost use Rattle.em_turn.specs.Planned.{planned};
ghost use Rattle.em_turn.specs.Turn.{plan_turns};

use anyhow::{Result, bail};
use em_driver::{E1000, Frame, IxyDevice, Layout, Turn, Turns};
use em_journal::Settings;
use em_step::Event;
use std::alloc::{AllocError, Global};
use std::collections::VecDeque;

/// Makes the machine, starts the driver on it, and receives a frame.
pub fn show(rt: &(impl Print + AllocGlobal)) -> Result<()> {
    // a machine on which others act between two accesses of the driver
    let machine = Settings::default().machine(rt.alloc())?;
    let bus = Turns::new(rt.alloc(), machine);

    // the driver resets the adapter, and makes two rings of eight descriptors with their buffers
    let layout = Layout {
        rx_ring: 0,
        rx_count: 8,
        rx_buffers: 0x1000,
        tx_ring: 0x80,
        tx_count: 8,
        tx_buffers: 0x5000,
    };
    let Ok((mut driver, events)) = E1000::start(rt.alloc(), bus, layout) else {
        bail!("the driver is not started");
    };
    receive(rt, events, &mut driver)
}

/// The started driver receives a frame that comes while it is called, and is taken back.
fn receive(rt: &(impl Print + AllocGlobal), events: u32, driver: &mut E1000<Turns>) -> Result<()> {
    println!(rt; "started, with {events} events")?;

    // the link comes up, and then a frame while the driver looks for one
    driver.bus().machine_mut().perform(Event::Link(true))?;
    let Ok(()) = driver.bus().set_plan(plan(rt.alloc())?) else {
        bail!("no memory for the plan");
    };
    let mut packets = VecDeque::new(rt.alloc());
    let batch = driver.rx_batch(0, &mut packets, 32)?;
    println!(rt;
        "packets received:    {}, with {} events",
        batch.count, batch.events
    )?;

    // its events are taken back, and those of the others: the frame has not come yet
    let turns = driver.bus().performed();
    let steps = batch.events as usize + turns as usize;
    driver.bus().machine_mut().back_by(steps);
    let batch = driver.rx_batch(0, &mut packets, 32)?;
    println!(rt;
        "before it came:      {}, with {} event",
        batch.count, batch.events
    )?;
    Ok(())
}

/// Before the driver's first access a broadcast arrives, and the receive engine handles a descriptor.
fn plan(alloc: Global) -> Result<VecDeque<Vec<Turn>>, AllocError>
    ensures { IfOk result (λ plan. plan_turns (planned plan.items) ≤ 2) }
{
    let frame = Frame::new(vec![in alloc; 0xFF; 60]?);
    let mut turns = Vec::new(alloc);
    turns.push(Turn::Arrive(frame))?;
    turns.push(Turn::RxStep)?;
    let mut plan = VecDeque::new(alloc);
    plan.push_back(turns)?;
    Ok(plan)
}
