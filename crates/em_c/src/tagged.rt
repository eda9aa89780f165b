//! A machine with the tag of its next events, and how far its wire was handed over.
ghost use Rattle.std.specs.Prelude.{◌≡◌, ◌<◌, IfOk, IfErr, OnOk, OnErr, length, min};
ghost use Rattle.em_step.specs.Event.{plain};
ghost use Rattle.em_step.specs.Step.{Refuses};
ghost use Rattle.em_journal.specs.View.{sent_before};
ghost use Rattle.em_c.specs.LetGo.{after_let_go};
ghost use Rattle.em_c.specs.Run.{Stops, is_idle};
ghost use Rattle.em_c.specs.Tagged.{Performs, IsNoteOf, after_backs, backs, present_of};

use em_journal::{Empty, Machine};
use em_step::{Answer, Event, Refusal};
use em_trail::{Note, Traced};
use std::alloc::AllocError;

/// A machine with its trail, the tag that its next events get, and how many of the frames that it sent were handed over:
/// the first ones.
#[derive(Drop)]
pub struct Tagged {
    pub traced: Traced,
    pub tag: u64,
    pub handed: usize,
}

impl Tagged {
    /// The machine, as a call has it that only looks: several threads may do so at once.
    pub fn looked_at(&self) -> &Machine
        ensures { result.now ≡ self.now.traced.view }
    {
        shared(self).traced.machine()
    }

    /// The same machine once more, in memory of its own, with the tag, and with as many frames handed over. It only
    /// looks, so several threads may do so at once.
    pub fn copy(&self) -> Result<Tagged, AllocError>
        ensures { IfOk result (λ copy. copy ≡ self.now) }
    {
        let it = shared(self);
        Ok(Tagged {
            traced: it.traced.copy()?,
            tag: it.tag,
            handed: it.handed,
        })
    }

    /// Performs an event under the tag. A refused event changes nothing.
    #[inline(always)]
    pub fn perform(&mut self, event: Event<'_>) -> Result<Answer, Refusal>
        ensures ok { IfOk result (λ answer. Performs self.old (plain event.entry) answer self.new) }
        ensures kept { OnOk result (0 < length self.new.traced.notes) }
        ensures err { IfErr result (Refuses (present_of self.old) (plain event.entry)) }
        ensures same { OnErr result (self.new ≡ self.old) }
    {
        let tag = self.tag;
        self.traced.perform(tag, event)
    }

    /// Performs an event under the tag, and gives its note. A refused event changes nothing.
    pub fn perform_noted(&mut self, event: Event<'_>) -> Result<Note, Refusal>
        ensures ok { IfOk result (IsNoteOf self.old (plain event.entry) self.new) }
        ensures err { IfErr result (Refuses (present_of self.old) (plain event.entry)) }
        ensures same { OnErr result (self.new ≡ self.old) }
    {
        self.perform(event)?;
        match self.traced.note(0) {
            Some(note) => Ok(note),
            None => unreachable!(),
        }
    }

    /// Takes events back, the newest first, until `n` are done or none is left, and gives how many it took back. Of the
    /// frames that were handed over those stay so that are on the wire still.
    pub fn back_by(&mut self, n: usize) -> usize
        ensures count { result ≡ min n (length self.old.traced.view.past) }
        ensures back { self.new ≡ after_backs n self.old }
    {
        let count = self.go_back(n);
        self.handed = self.handed.min(self.traced.machine().wire_len());
        count
    }

    /// Lets go of the octets of the frames that were sent and that no step back takes off the wire, and gives how many these
    /// are: they count as handed over.
    pub fn let_frames_go(&mut self) -> usize
        ensures count { result ≡ sent_before self.old.traced.view }
        ensures held { self.new ≡ after_let_go self.old }
    {
        let count = self.traced.let_frames_go();
        self.handed = self.handed.max(count);
        count
    }

    /// Takes events back.
    fn go_back(&mut self, n: usize) -> usize
        ensures count { result ≡ min n (length self.old.traced.view.past) }
        ensures back { self.new ≡ backs n self.old }
    {
        let count = n.min(self.traced.len());
        for done in 0..count {
            match self.traced.back() {
                Ok(_) => {}
                Err(Empty) => return done,
            }
        }
        count
    }

    /// Performs an event until it is idle or refused, and at most `n` times that are neither; gives how many those
    /// were, and why the next one was refused.
    pub fn repeat(&mut self, event: Event<'_>, n: usize) -> (usize, Option<Refusal>)
        ensures { Stops result.0 n (plain event.entry) self.old self.new result.1 }
    {
        for done in 0..n {
            match self.perform(event) {
                Ok(answer) => {
                    if is_idle(answer) {
                        return (done, None);
                    }
                }
                Err(refusal) => return (done, Some(refusal)),
            }
        }
        (n, None)
    }
}

/// What several threads may have a `&` to.
fn shared<T: Sync>(it: &T) -> &T
    ensures { result.now ≡ it.now }
{
    it
}

/// Whether an engine had nothing to do.
fn is_idle(answer: Answer) -> bool
    ensures { result ≡ is_idle answer }
{
    matches!(answer, Answer::Idle)
}
