//! How the lines of a script are counted.
ghost use Rattle.std.specs.Prelude.{◌≡◌, ◌+◌, ◌≤◌, ◌<◌, ◌^◌};
ghost use Rattle.em_run.specs.Summary.{after_outcome};

use em_script::Outcome;

/// How the lines of a script are counted.
#[derive(Clone, Copy, Debug, PartialEq, Eq)]
pub struct Summary {
    /// Those that are neither blank nor comments.
    pub lines: u32,
    /// Those that have no form.
    pub bad: u32,
    /// Those that were refused.
    pub refused: u32,
}

/// Counts one more line.
pub fn count(summary: &mut Summary, outcome: Outcome)
    requires bad { summary.old.bad ≤ summary.old.lines }
    requires refused { summary.old.refused ≤ summary.old.lines }
    requires room { summary.old.lines < 2 ^ 31 }
    ensures value { summary.new ≡ after_outcome summary.old outcome }
    ensures bad { summary.new.bad ≤ summary.new.lines }
    ensures refused { summary.new.refused ≤ summary.new.lines }
    ensures lines { summary.new.lines ≤ summary.old.lines + 1 }
{
    match outcome {
        Outcome::Silent => {}
        Outcome::Bad => {
            summary.lines += 1;
            summary.bad += 1;
        }
        Outcome::Done | Outcome::Answered(_) => summary.lines += 1,
        Outcome::Refused(_) => {
            summary.lines += 1;
            summary.refused += 1;
        }
    }
}
