//! A machine on which other actors act by a plan.
ghost use Rattle.std.specs.Prelude.{◌≡◌, ◌<◌, false, length, min, slice_get, IfOk, IfErr, IsOk, OnErr, OnOk};
ghost use Rattle.std.specs.Option.{option_map};
ghost use Rattle.std.specs.Borrow.{Lends, sem};
ghost use Rattle.em_driver.specs.contracts.turns.Turns.{the_row as turns-row};
ghost use Rattle.em_step.specs.Event.{plain};
ghost use Rattle.em_journal.specs.History.{Does, WasJournalled, refuses};
ghost use Rattle.em_journal.specs.View.{after_backs};
ghost use Rattle.em_turn.specs.Planned.{planned};
ghost use Rattle.em_turn.specs.Turn.{plan_arrivals, plan_turns};
ghost use Rattle.em_driver.specs.World.{Passes, quiet};

use crate::bus::Bus;
use crate::counting::arrivals_of_plan;
use crate::taking::{Counts, take_all};
use em_journal::{Acts, Machine};
use em_regs::Reg;
use em_step::{Answer, Event, Refusal};
use em_turn::{Frame, PlanRefused, Turn};
use std::alloc::Global;
use std::collections::VecDeque;
use std::marker::Model;

/// A machine with a plan: before each access of a driver, the plan's first list is taken and its
/// turns happen, in order.
#[derive(Drop)]
pub struct Turns<M: Acts = Machine> {
    machine: M,
    alloc: Global,
    plan: VecDeque<Vec<Turn>>,
    // has room for every arrival of the plan
    stored: Vec<Frame>,
    counts: Counts,
    starved: bool,
}

impl<M: Acts> Model for Turns<M> {
    ghost use Rattle.std.specs.Prelude.{◌+◌, ◌<◌, ◌≤◌, vec_len, vec_capacity, map, true, None};
    ghost use Rattle.em_turn.specs.Turn.{plan_arrivals, plan_turns};
    ghost use Rattle.em_driver.specs.World.{World, world_code};
    ghost use Rattle.em_turn.specs.Planned.{planned};

    ghost Value = { World };

    ghost coded = { world_code };

    ghost view = { λ t. record {
      machine = M.shows t.machine;
      stored = t.stored.items;
      plan = planned t.plan.items;
      spared = None;
      performed = t.counts.performed;
      refused = t.counts.refused;
      starved = t.starved;
      scarce = true;
    } };

    ghost invariant = { λ t. (vec_len t.stored + plan_arrivals (planned t.plan.items) ≤ vec_capacity t.stored)
        × (t.counts.performed + t.counts.refused + plan_turns (planned t.plan.items) < 0x1_0000_0000) };
}

impl<M: Acts> Turns<M> {
    /// A machine with no plan.
    pub fn new(alloc: Global, machine: M) -> Turns<M>
        ensures { result ≡ quiet (M.shows machine) }
    {
        Turns {
            machine,
            alloc,
            plan: VecDeque::new(alloc),
            stored: Vec::new(alloc),
            counts: Counts {
                performed: 0,
                refused: 0,
            },
            starved: false,
        }
    }

    /// The machine.
    pub fn machine(&self) -> &Machine
        ensures { result.now ≡ self.now.machine }
    {
        self.machine.machine()
    }

    /// What performs the events, to look at.
    pub fn acts(&self) -> &M
        ensures { M.shows result.now ≡ self.now.machine }
    {
        &self.machine
    }

    /// What performs the events, for who acts between two calls of a driver; no turn happens then.
    pub fn machine_mut(&mut self) -> &mut M
        ensures value { M.shows result.now ≡ self.old.machine }
        ensures* writes_back { sem 𝓛 (Lends (turns-row M.row M.Acts) M.row self.entry result (λ machine.
            record self.entry.now { machine = M.shows machine })) }
    {
        &mut self.machine
    }

    /// Performs an event between two calls of a driver; no turn happens then.
    #[inline(always)]
    pub fn perform(&mut self, event: Event<'_>) -> Result<Answer, Refusal>
        ensures ok { IfOk result (λ answer.
            WasJournalled self.old.machine (plain event.entry) answer self.new.machine) }
        ensures err { IfErr result (λ refusal.
            Does self.old.machine (refuses (plain event.entry) refusal) self.new.machine) }
        ensures rest { self.new ≡ record self.old { machine = self.new.machine } }
    {
        self.machine.perform(event)
    }

    /// Takes the newest events back, at most so many, and gives how many.
    pub fn back_by(&mut self, most: usize) -> usize
        ensures count { result ≡ min most (length self.old.machine.past) }
        ensures view { self.new ≡ record self.old { machine = after_backs most self.old.machine } }
    {
        self.machine.back_by(most)
    }

    /// The machine, without the plan.
    pub fn into_machine(self) -> M
        ensures { M.shows result ≡ self.machine }
    {
        self.machine
    }

    /// How many frames the turns of the plan stored.
    pub fn stored_len(&self) -> usize
        ensures { result ≡ length self.now.stored }
    {
        self.stored.len()
    }

    /// A stored frame's octets, as it arrived; none where so many were not stored.
    pub fn stored(&self, index: usize) -> Option<&[u8]>
        ensures { option_map (λ frame. frame.now) result ≡ slice_get self.now.stored index }
    {
        let frame = self.stored.get(index)?;
        Some(frame.octets())
    }

    /// How many turns of the plan were performed.
    pub fn performed(&self) -> u32
        ensures { result ≡ self.now.performed }
    {
        self.counts.performed
    }

    /// How many turns of the plan were refused, but for one that found no memory.
    pub fn refused(&self) -> u32
        ensures { result ≡ self.now.refused }
    {
        self.counts.refused
    }

    /// Whether memory was refused to a turn. It and the turns behind it were dropped.
    pub fn starved(&self) -> bool
        ensures { result ≡ self.now.starved }
    {
        self.starved
    }

    /// Sets the plan: a list of turns for each access to come. What the plan before it stored and
    /// counted is let go. Where memory is refused the plan comes back, and all is as before.
    ///
    /// A plan without arrivals takes no memory.
    pub fn set_plan(&mut self, plan: VecDeque<Vec<Turn>>) -> Result<(), PlanRefused>
        requires { plan_turns (planned plan.items) < 0x1_0000_0000 }
        ensures ok { OnOk result (self.new ≡ record (quiet self.old.machine) { plan = planned plan.items }) }
        ensures err { IfErr result (λ e. e.plan ≡ plan) }
        ensures same { OnErr result (self.new ≡ self.old) }
        ensures still { plan_arrivals (planned plan.items) ≡ 0 → IsOk result }
    {
        match Vec::with_capacity(self.alloc, arrivals_of_plan(&plan)) {
            Ok(stored) => {
                self.count_anew();
                self.stored = stored;
                self.plan = plan;
                Ok(())
            }
            Err(_) => Err(PlanRefused { plan }),
        }
    }

    /// Lets the plan go, and what it stored and counted.
    pub fn end_plan(&mut self)
        ensures { self.new ≡ quiet self.old.machine }
    {
        // most often there was none
        if !self.plan.is_empty() {
            self.plan = VecDeque::new(self.alloc);
        }
        if self.stored.capacity() > 0 {
            self.stored = Vec::new(self.alloc);
        }
        self.count_anew();
    }

    /// Begins the counts of turns anew.
    fn count_anew(&mut self)
        ensures { self.new ≡ record self.old { performed = 0; refused = 0; starved = false } }
    {
        self.counts = Counts {
            performed: 0,
            refused: 0,
        };
        self.starved = false;
    }

    /// The others take the turns that the plan has here. Most accesses have none.
    #[inline(always)]
    fn pass(&mut self)
        ensures { Passes self.old self.new }
    {
        if !self.plan.is_empty() {
            self.take_turns();
        }
    }

    /// The others take the turns of the plan's first list.
    #[inline(never)]
    fn take_turns(&mut self)
        ensures { Passes self.old self.new }
    {
        let Some(turns) = self.plan.pop_front() else {
            return;
        };
        if !take_all(turns, &mut self.machine, &mut self.stored, &mut self.counts) {
            self.plan.clear();
            self.starved = true;
        }
    }
}

impl<M: Acts> Bus for Turns<M> {
    ghost world = { λ turns. turns };

    fn read(&mut self, reg: Reg) -> u32 {
        self.pass();
        self.machine.read_register(reg)
    }

    fn write(&mut self, reg: Reg, value: u32) -> Result<(), Refusal> {
        self.pass();
        self.machine.write_register(reg, value)
    }

    fn peek(&mut self, addr: u64, out: &mut [u8]) -> Result<(), Refusal> {
        self.pass();
        self.machine.machine().peek(addr, out)
    }

    fn poke(&mut self, addr: u64, octets: &[u8]) -> Result<(), Refusal> {
        self.pass();
        self.machine.perform(Event::Poke(addr, octets))?;
        Ok(())
    }

    fn base(&self) -> u64 {
        self.machine.machine().memory_base()
    }

    fn end(&self) -> u64 {
        self.machine.machine().memory_end()
    }
}
