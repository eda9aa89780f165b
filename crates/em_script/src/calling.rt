//! Calling a driver on the machine of a session.
ghost use Rattle.std.specs.Prelude.{◌≡◌, ◌+◌, [], true, false, if◌then◌else◌, Some, None, IfOk, OnOk, OnErr};
ghost use Rattle.em_driver.specs.Course.{Follows};
ghost use Rattle.em_driver.specs.Outcome as outcome;
ghost use Rattle.em_turn.specs.Planned.{lists};
ghost use Rattle.em_driver.specs.World.{quiet};
ghost use Rattle.em_script.specs.Calling.{course_of, init_layout, plan_counts, IsCalled};
ghost use Rattle.em_line.specs.Request.{plain_call, starts, sends, receives, stats, address, sets_address};
ghost use Rattle.em_script.specs.DriverAnswer.{is_started, plain};

use crate::call_events::CallEvents;
use crate::driver_answer::DriverAnswer;
use crate::driver_reply::{DriverReply, PlanCounts};
use crate::no_driver::NoDriver;
use crate::seat::Seat;
use crate::session::Session;
use em_driver::{Batch, DeviceStats, E1000, IxyDevice, Layout, Stopped, Turns};
use em_journal::Acts;
use em_line::{DriverCall, take_empty};
use std::alloc::Global;
use std::collections::VecDeque;
use std::mem;

/// Where a line puts rings and buffers: two rings of 8 descriptors.
const LAYOUT: Layout = Layout {
    rx_ring: 0x0,
    rx_count: 8,
    rx_buffers: 0x1000,
    tx_ring: 0x80,
    tx_count: 8,
    tx_buffers: 0x5000,
};

/// Starts a driver on the machine of a session, in the place of one that stands.
pub fn start_driver<M: Acts>(alloc: Global, session: &mut Session<M>) -> DriverReply
    ensures { IsCalled starts session.old session.new result }
{
    let turns = mem::replace(&mut session.seat, Seat::Moved).into_turns();
    let planned = mem::replace(&mut session.planned, false);
    match E1000::start(alloc, turns, LAYOUT) {
        Ok((mut driver, events)) => {
            let (all, plan) = end_plan(driver.bus(), events, planned);
            session.events = all;
            session.seat.put(Seat::Driven(driver));
            DriverReply {
                events,
                answer: DriverAnswer::Start(None),
                plan,
            }
        }
        Err(refused) => {
            let mut turns = refused.bus;
            let (all, plan) = end_plan(&mut turns, refused.events, planned);
            session.events = all;
            session.seat.put(Seat::Bare(turns));
            DriverReply {
                events: refused.events,
                answer: DriverAnswer::Start(Some(refused.cause)),
                plan,
            }
        }
    }
}

/// Has the driver of a session do what is asked, if one stands.
pub fn call_driver<M: Acts>(
    alloc: Global,
    session: &mut Session<M>,
    call: DriverCall,
) -> Result<DriverReply, NoDriver>
    ensures stands { OnOk result (session.old.started ≡ true) }
    ensures called { IfOk result (IsCalled (plain_call call) session.old session.new) }
    ensures none { OnErr result (session.old.started ≡ false) }
    ensures same { OnErr result (session.new ≡ session.old) }
{
    let Seat::Driven(driver) = &mut session.seat else {
        return Err(NoDriver);
    };
    let (events, answer) = call_by(alloc, driver, &mut session.packets, call);
    let (all, plan) = end_plan(driver.bus(), events, session.planned);
    session.events = all;
    session.planned = false;
    Ok(DriverReply {
        events,
        answer,
        plan,
    })
}

/// Lets a plan go. It tells how many events a call performed that performed so many of its own, and
/// what the turns of the plan came to, where one was set.
fn end_plan<M: Acts>(
    turns: &mut Turns<M>,
    own: u32,
    planned: bool,
) -> (CallEvents, Option<PlanCounts>)
    ensures events { result.0 ≡ own + turns.old.performed }
    ensures counts { result.1 ≡ plan_counts (if planned then Some [] else None) turns.old }
    ensures turns { turns.new ≡ quiet turns.old.machine }
{
    let counts = PlanCounts {
        performed: turns.performed(),
        refused: turns.refused(),
        starved: turns.starved(),
    };
    turns.end_plan();
    let all = CallEvents {
        own,
        others: counts.performed,
    };
    (all, if planned { Some(counts) } else { None })
}

/// What a driver does on a call: so many events, and its answer. What it receives comes into the
/// spare queue.
fn call_by<M: Acts>(
    alloc: Global,
    driver: &mut E1000<Turns<M>>,
    spare: &mut VecDeque<Vec<u8>>,
    call: DriverCall,
) -> (u32, DriverAnswer)
    requires { driver.old.layout ≡ init_layout }
    ensures course { Follows driver.old.bus (course_of (plain_call call) driver.old.bus) result.0 (plain result.1)
        driver.new.bus }
    ensures stands { is_started (plain result.1) ≡ true }
    ensures layout { driver.new.layout ≡ driver.old.layout }
{
    match call {
        DriverCall::Send(packets) => send(driver, packets),
        DriverCall::Receive(most) => receive(driver, take_empty(alloc, spare), most),
        DriverCall::Stats => count(driver),
        DriverCall::Address => tell_address(driver),
        DriverCall::SetAddress(address) => set_address(driver, address),
    }
}

fn send<M: Acts>(
    driver: &mut E1000<Turns<M>>,
    mut packets: VecDeque<Vec<u8>>,
) -> (u32, DriverAnswer)
    requires { driver.old.layout ≡ init_layout }
    ensures course { Follows driver.old.bus (course_of (sends (lists packets.items)) driver.old.bus)
        result.0 (plain result.1) driver.new.bus }
    ensures stands { is_started (plain result.1) ≡ true }
    ensures layout { driver.new.layout ≡ driver.old.layout }
{
    let result = driver.tx_batch(0, &mut packets);
    // What was not sent is no packet that came.
    packets.clear();
    (events_of(&result), DriverAnswer::Batch(packets, result))
}

fn receive<M: Acts>(
    driver: &mut E1000<Turns<M>>,
    mut packets: VecDeque<Vec<u8>>,
    most: u32,
) -> (u32, DriverAnswer)
    requires layout { driver.old.layout ≡ init_layout }
    requires empty { packets.items ≡ [] }
    ensures course { Follows driver.old.bus (course_of (receives most) driver.old.bus)
        result.0 (plain result.1) driver.new.bus }
    ensures stands { is_started (plain result.1) ≡ true }
    ensures layout { driver.new.layout ≡ driver.old.layout }
{
    let result = driver.rx_batch(0, &mut packets, most as usize);
    (events_of(&result), DriverAnswer::Batch(packets, result))
}

fn count<M: Acts>(driver: &mut E1000<Turns<M>>) -> (u32, DriverAnswer)
    ensures course { Follows driver.old.bus (course_of stats driver.old.bus) result.0 (plain result.1) driver.new.bus }
    ensures stands { is_started (plain result.1) ≡ true }
    ensures layout { driver.new.layout ≡ driver.old.layout }
{
    let mut counted = DeviceStats::default();
    driver.read_stats(&mut counted);
    (6, DriverAnswer::Stats(counted))
}

fn tell_address<M: Acts>(driver: &mut E1000<Turns<M>>) -> (u32, DriverAnswer)
    ensures course { Follows driver.old.bus (course_of address driver.old.bus) result.0 (plain result.1)
        driver.new.bus }
    ensures stands { is_started (plain result.1) ≡ true }
    ensures layout { driver.new.layout ≡ driver.old.layout }
{
    (2, DriverAnswer::Address(driver.get_mac_addr()))
}

fn set_address<M: Acts>(driver: &mut E1000<Turns<M>>, octets: [u8; 6]) -> (u32, DriverAnswer)
    ensures course { Follows driver.old.bus (course_of (sets_address octets) driver.old.bus)
        result.0 (plain result.1) driver.new.bus }
    ensures stands { is_started (plain result.1) ≡ true }
    ensures layout { driver.new.layout ≡ driver.old.layout }
{
    driver.set_mac_addr(octets);
    (2, DriverAnswer::Set)
}

/// How many events a call performed, whether it stopped or not.
fn events_of(moved: &Result<Batch, Stopped>) -> u32
    ensures { result ≡ outcome.events_of moved.now }
{
    match moved {
        Ok(batch) => batch.events,
        Err(stopped) => stopped.events,
    }
}
