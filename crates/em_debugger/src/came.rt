//! How the lines came out.
ghost use Rattle.std.specs.Prelude.{◌≡◌, ◌<◌, ◌≤◌, IfErr, OnOk, [], length, take, slice_set};
ghost use Rattle.em_debugger.specs.Came.{Stays, came_of};

use em_script::{BenchFault, Outcome};
use std::alloc::Global;

/// By line, how it came out as it was performed last.
#[derive(Drop)]
pub(crate) struct Came {
    outcomes: Vec<Outcome>,
}

impl Came {
    /// Before any line.
    pub(crate) fn new(alloc: Global) -> Came
        ensures { result.outcomes.items ≡ [] }
    {
        Came {
            outcomes: Vec::new(alloc),
        }
    }

    /// Makes a place beside the line of this number, from 1, in which it can be [`set`](Came::set) how it came out.
    pub(crate) fn make_ready(&mut self, number: usize) -> Result<(), BenchFault>
        ensures stay { Stays self.old.outcomes.items self.new.outcomes.items }
        ensures place { OnOk result (number ≤ length self.new.outcomes.items) }
        ensures only { IfErr result (λ fault. fault ≡ BenchFault.Memory) }
    {
        while self.outcomes.len() < number {
            let Ok(()) = self.outcomes.push(Outcome::Silent) else {
                return Err(BenchFault::Memory);
            };
        }
        Ok(())
    }

    /// Keeps how the line behind the first so many came out.
    pub(crate) fn set(&mut self, before: usize, outcome: Outcome)
        requires { before < length self.old.outcomes.items }
        ensures { self.new.outcomes.items ≡ slice_set self.old.outcomes.items before outcome }
    {
        self.outcomes[before] = outcome;
    }

    /// How the line of this number came out; where nothing is kept of it, as a line that says nothing.
    pub(crate) fn of(&self, number: usize) -> Outcome
        ensures { result ≡ came_of number self.now.outcomes.items }
    {
        if number == 0 {
            return Outcome::Silent;
        }
        match self.outcomes.get(number - 1) {
            Some(outcome) => *outcome,
            None => Outcome::Silent,
        }
    }

    /// Forgets how the lines behind so many came out.
    pub(crate) fn keep(&mut self, lines: usize)
        ensures { self.new.outcomes.items ≡ take lines self.old.outcomes.items }
    {
        self.outcomes.truncate(lines);
    }
}
