//! What a script is run on.
ghost use Rattle.std.specs.Prelude.{◌≡◌, ◌<◌, Some, OnOk, OnErr, length, min};
ghost use Rattle.em_journal.specs.View.{after_backs};
ghost use Rattle.em_turn.specs.Planned.{planned};
ghost use Rattle.em_turn.specs.Turn.{plan_turns};
ghost use Rattle.em_script.specs.Session.{bare};

use crate::call_events::CallEvents;
use crate::driver_answer::DriverAnswer;
use crate::seat::Seat;
use em_driver::{PlanRefused, Turn, Turns};
use em_journal::{Acts, Machine};
use std::alloc::Global;
use std::collections::VecDeque;
use std::marker::Model;

/// A machine, and what scripts keep beside it: whether a driver stands on it, and a plan of turns
/// for the next call of a driver.
#[derive(Drop)]
pub struct Session<M: Acts = Machine> {
    pub(crate) seat: Seat<M>,
    // whether a plan was set since the last call of a driver
    pub(crate) planned: bool,
    // for the packets of the next call of a driver; what it holds until then is of no matter
    pub(crate) packets: VecDeque<Vec<u8>>,
    // how many events the last call of a driver performed, with those of its plan
    pub(crate) events: CallEvents,
}

impl<M: Acts> Model for Session<M> {
    ghost use Rattle.em_script.specs.Session.{Session, session_code};
    ghost use Rattle.em_script.specs.Seat.{session_of, IsSeated};

    ghost Value = { Session };

    ghost coded = { session_code };

    ghost view = { λ s. session_of s.seat s.planned s.events };

    ghost invariant = { λ s. IsSeated s.seat s.planned };
}

impl<M: Acts> Session<M> {
    /// A session over a machine, which stays as it is.
    pub fn new(alloc: Global, machine: M) -> Session<M>
        ensures { result ≡ bare (M.shows machine) }
    {
        Session {
            seat: Seat::Bare(Turns::new(alloc, machine)),
            planned: false,
            packets: VecDeque::new(alloc),
            events: CallEvents { own: 0, others: 0 },
        }
    }

    /// Sets the plan for the next call of a driver. Where memory is refused the plan before it stays.
    pub(crate) fn set_plan(&mut self, plan: VecDeque<Vec<Turn>>) -> Result<(), PlanRefused>
        requires { plan_turns (planned plan.items) < 0x1_0000_0000 }
        ensures ok { OnOk result (self.new ≡ record self.old { plan = Some (planned plan.items) }) }
        ensures err { OnErr result (self.new ≡ self.old) }
    {
        match &mut self.seat {
            Seat::Bare(turns) => turns.set_plan(plan)?,
            Seat::Driven(driver) => driver.bus().set_plan(plan)?,
            Seat::Moved => unreachable!(),
        }
        self.planned = true;
        Ok(())
    }

    /// How many events the last call of a driver performed, with those of its plan.
    pub fn events_of_call(&self) -> u64
        ensures value { result ≡ self.now.events }
        ensures few { result < 0x2_0000_0000 }
    {
        self.events.all()
    }

    /// Whether a driver stands on the machine.
    pub fn is_started(&self) -> bool
        ensures { result ≡ self.now.started }
    {
        match &self.seat {
            Seat::Driven(_) => true,
            _ => false,
        }
    }

    /// Keeps the queue of an answer for the next call that moves packets.
    pub(crate) fn keep_packets(&mut self, answer: DriverAnswer)
        ensures { self.new ≡ self.old }
    {
        if let DriverAnswer::Batch(packets, _) = answer {
            self.packets = packets;
        }
    }

    /// Takes the machine's newest events back, at most so many, and gives how many. The driver and the plan
    /// stay as they are, as a line `back` leaves them.
    pub fn back_by(&mut self, most: usize) -> usize
        ensures count { result ≡ min most (length self.old.machine.past) }
        ensures session { self.new ≡ record self.old { machine = after_backs most self.old.machine } }
    {
        match &mut self.seat {
            Seat::Bare(turns) => turns.back_by(most),
            Seat::Driven(driver) => driver.bus().back_by(most),
            Seat::Moved => unreachable!(),
        }
    }

    /// The machine as the scripts so far left it.
    pub fn machine(&self) -> &Machine
        ensures { result.now ≡ self.now.machine }
    {
        match &self.seat {
            Seat::Bare(turns) => turns.machine(),
            Seat::Driven(driver) => driver.look_bus().machine(),
            Seat::Moved => unreachable!(),
        }
    }

    /// What performs the events, to look at: the machine, with what is kept beside it.
    pub fn acts(&self) -> &M
        ensures { M.shows result.now ≡ self.now.machine }
    {
        match &self.seat {
            Seat::Bare(turns) => turns.acts(),
            Seat::Driven(driver) => driver.look_bus().acts(),
            Seat::Moved => unreachable!(),
        }
    }
}
