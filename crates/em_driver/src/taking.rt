//! How the turns of a list are taken.
ghost use Rattle.std.specs.Prelude.{◌≡◌, ◌+◌, ◌<◌, ◌≤◌, ℕ, List, length, vec_len, vec_capacity};
ghost use Rattle.em_driver.specs.Taking.{Takes, TakesAll, outcome_of, world_with};
ghost use Rattle.em_turn.specs.Turn.{arrivals, is_arrival};

use em_journal::Acts;
use em_step::{Answer, Event, Refusal};
use em_turn::{Frame, Turn};

/// How many turns were performed, and how many refused.
#[derive(Clone, Copy, Debug)]
pub struct Counts {
    pub performed: u32,
    pub refused: u32,
}

/// What became of a turn.
#[derive(Clone, Copy, Debug)]
pub enum TurnOutcome {
    Performed,
    Refused,
    Starved,
}

/// Takes the turns of a list, in order, up to one that finds no memory, and gives whether there was
/// none such. There is room for the frames that arrive.
pub(crate) fn take_all<M: Acts>(
    turns: Vec<Turn>,
    machine: &mut M,
    stored: &mut Vec<Frame>,
    counts: &mut Counts,
) -> bool
    requires few { counts.old.performed + counts.old.refused + length turns.items < 0x1_0000_0000 }
    requires room { vec_len stored.old + arrivals turns.items ≤ vec_capacity stored.old }
    ensures takes { TakesAll (world_with (M.shows machine.old) stored.old.items counts.old) turns.items result
        (world_with (M.shows machine.new) stored.new.items counts.new) }
    ensures few { counts.new.performed + counts.new.refused
        ≤ counts.old.performed + counts.old.refused + length turns.items }
    ensures room { vec_len stored.new ≤ vec_len stored.old + arrivals turns.items }
    ensures capacity { vec_capacity stored.new ≡ vec_capacity stored.old }
{
    for turn in turns {
        match take(turn, machine, stored) {
            TurnOutcome::Performed => counts.performed += 1,
            TurnOutcome::Refused => counts.refused += 1,
            TurnOutcome::Starved => return false,
        }
    }
    true
}

/// Takes one turn. There is room for a frame that arrives.
fn take<M: Acts>(turn: Turn, machine: &mut M, stored: &mut Vec<Frame>) -> TurnOutcome
    requires { vec_len stored.old + is_arrival turn ≤ vec_capacity stored.old }
    ensures takes { Takes (M.shows machine.old) stored.old.items turn result (M.shows machine.new) stored.new.items }
    ensures room { vec_len stored.new ≤ vec_len stored.old + is_arrival turn }
    ensures capacity { vec_capacity stored.new ≡ vec_capacity stored.old }
{
    match turn {
        Turn::Arrive(frame) => arrive(frame, machine, stored),
        Turn::RxStep => receive(machine),
        Turn::TxStep => transmit(machine),
    }
}

/// A frame arrives, and is noted where it is stored. There is room for it.
fn arrive<M: Acts>(frame: Frame, machine: &mut M, stored: &mut Vec<Frame>) -> TurnOutcome
    requires { vec_len stored.old < vec_capacity stored.old }
    ensures takes { Takes (M.shows machine.old) stored.old.items (Turn.Arrive frame) result (M.shows machine.new)
        stored.new.items }
    ensures room { vec_len stored.new ≤ vec_len stored.old + 1 }
    ensures capacity { vec_capacity stored.new ≡ vec_capacity stored.old }
{
    match machine.perform(Event::Arrive(frame.octets())) {
        Ok(answer) => {
            match answer {
                Answer::Stored => stored.push_reserved(frame),
                _ => {}
            }
            TurnOutcome::Performed
        }
        Err(refusal) => not_performed(refusal),
    }
}

/// The receive engine handles one descriptor.
fn receive<M: Acts>(machine: &mut M) -> TurnOutcome
    ensures { (stored : List (List ℕ))
        → Takes (M.shows machine.old) stored Turn.RxStep result (M.shows machine.new) stored }
{
    match machine.perform(Event::RxStep) {
        Ok(_) => TurnOutcome::Performed,
        Err(refusal) => not_performed(refusal),
    }
}

/// The transmit engine handles one descriptor.
fn transmit<M: Acts>(machine: &mut M) -> TurnOutcome
    ensures { (stored : List (List ℕ))
        → Takes (M.shows machine.old) stored Turn.TxStep result (M.shows machine.new) stored }
{
    match machine.perform(Event::TxStep) {
        Ok(_) => TurnOutcome::Performed,
        Err(refusal) => not_performed(refusal),
    }
}

/// What a refused turn is counted as.
fn not_performed(refusal: Refusal) -> TurnOutcome
    ensures { result ≡ outcome_of refusal }
{
    match refusal {
        Refusal::Memory => TurnOutcome::Starved,
        _ => TurnOutcome::Refused,
    }
}
