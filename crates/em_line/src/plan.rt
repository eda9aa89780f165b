//! The plan that the words of a line say.
ghost use Rattle.std.specs.Prelude.{◌≡◌, ◌<◌, ◌≤◌, ◌↔◌, length, Some, IfOk, IfSome, IsSome, IsTrue};
ghost use Rattle.em_text.specs.Words.{words_of};
ghost use Rattle.em_turn.specs.Planned.{planned};
ghost use Rattle.em_turn.specs.Turn.{plan_turns};
ghost use Rattle.em_line.specs.Plan.{plan_of, said_turn};

use crate::frame::{frame_into, is_frame};
use crate::turn_word::{TurnWord, turn_word};
use em_text::Words;
use em_turn::{Frame, Turn};
use std::alloc::{AllocError, Global};
use std::collections::VecDeque;
use std::mem;

/// Words that say a plan.
#[derive(Clone, Copy)]
pub struct PlanWords<'a> {
    pub words: Words<'a>,
    ghost say: { IsSome (plan_of (words_of words.0.now)) },
    ghost few: { length (words_of words.0.now) < 0x1_0000_0000 },
}

/// The words, if they say a plan. It takes no memory.
pub fn plan_words(words: Words<'_>) -> Option<PlanWords<'_>>
    requires { length (words_of words.0.now) < 0x1_0000_0000 }
    ensures some { IsSome result ↔ IsSome (plan_of (words_of words.entry.0.now)) }
    ensures same { IfSome result (λ plan. plan.words.0.now ≡ words.entry.0.now) }
{
    if are_turns(words) {
        Some(PlanWords { words })
    } else {
        None
    }
}

/// Whether words say a plan. It takes no memory.
pub(crate) fn are_turns(words: Words<'_>) -> bool
    ensures { IsTrue result ↔ IsSome (plan_of (words_of words.entry.0.now)) }
{
    for word in words {
        if !is_turn(word) {
            return false;
        }
    }
    true
}

/// Whether a word says a turn, or the end of those before an access.
fn is_turn(word: &[u8]) -> bool
    ensures { IsTrue result ↔ IsSome (said_turn word.now) }
{
    match turn_word(word) {
        Some(TurnWord::Arrive(data)) => is_frame(data),
        Some(_) => true,
        None => false,
    }
}

/// The plan that words say.
pub fn plan_of(alloc: Global, plan: PlanWords<'_>) -> Result<VecDeque<Vec<Turn>>, AllocError>
    ensures value { IfOk result (λ made. plan_of (words_of plan.entry.words.0.now) ≡ Some (planned made.items)) }
    ensures few { IfOk result (λ made. plan_turns (planned made.items) < 0x1_0000_0000) }
{
    made_of(alloc, plan.words)
}

/// The same, of however many words: it has at most as many turns.
pub(crate) fn made_of(alloc: Global, words: Words<'_>) -> Result<VecDeque<Vec<Turn>>, AllocError>
    requires { IsSome (plan_of (words_of words.0.now)) }
    ensures value { IfOk result (λ made. plan_of (words_of words.entry.0.now) ≡ Some (planned made.items)) }
    ensures few { IfOk result (λ made. plan_turns (planned made.items) ≤ length (words_of words.entry.0.now)) }
{
    let mut made = VecDeque::new(alloc);
    let mut turns = Vec::new(alloc);
    for word in words {
        match turn_in(alloc, word)? {
            Some(turn) => turns.push(turn)?,
            None => made.push_back(mem::replace(&mut turns, Vec::new(alloc)))?,
        }
    }
    made.push_back(turns)?;
    Ok(made)
}

/// The turn that a word says, if it does not say the end of those before an access.
fn turn_in(alloc: Global, word: &[u8]) -> Result<Option<Turn>, AllocError>
    requires { IsSome (said_turn word.now) }
    ensures { IfOk result (λ turn. said_turn word.now ≡ Some turn) }
{
    match turn_word(word) {
        Some(TurnWord::End) => Ok(None),
        Some(TurnWord::RxStep) => Ok(Some(Turn::RxStep)),
        Some(TurnWord::TxStep) => Ok(Some(Turn::TxStep)),
        Some(TurnWord::Arrive(data)) => {
            let mut octets = Vec::new(alloc);
            if !frame_into(&mut octets, data)? {
                unreachable!();
            }
            Ok(Some(Turn::Arrive(Frame::new(octets))))
        }
        None => unreachable!(),
    }
}
