//! How many arrivals a plan has.
ghost use Rattle.std.specs.Prelude.{◌≡◌, ◌<◌, length};
ghost use Rattle.em_turn.specs.Planned.{planned};
ghost use Rattle.em_turn.specs.Turn.{arrivals, is_arrival, plan_arrivals, plan_turns};

use em_turn::Turn;
use std::collections::VecDeque;

/// The arrivals of a plan.
pub(crate) fn arrivals_of_plan(plan: &VecDeque<Vec<Turn>>) -> usize
    requires { plan_turns (planned plan.now.items) < 0x1_0000_0000 }
    ensures { result ≡ plan_arrivals (planned plan.now.items) }
{
    let mut count = 0;
    for turns in plan {
        count += arrivals_of(turns);
    }
    count
}

/// The arrivals of a list of turns.
#[tactic(auto, using(crate::proofs::course::Arrivals::arrivals_more, crate::proofs::course::Arrivals::arrival_least))]
fn arrivals_of(turns: &[Turn]) -> usize
    requires { length turns.now < 0x1_0000_0000 }
    ensures { result ≡ arrivals turns.now }
{
    let mut count = 0;
    for turn in turns {
        count += one_if_arrival(turn);
    }
    count
}

/// 1 for an arrival, and 0 for any other turn.
fn one_if_arrival(turn: &Turn) -> usize
    ensures { result ≡ is_arrival turn.now }
{
    match turn {
        Turn::Arrive(_) => 1,
        Turn::RxStep | Turn::TxStep => 0,
    }
}
