//! Writes of guest memory by software.
ghost use Rattle.std.specs.Prelude.{◌≡◌, ◌+◌, ◌<◌, ◌≤◌, [], length, IfOk, IfErr, OnOk, OnErr};
ghost use Rattle.em_mem.specs.Memory.{LiesIn, put};
ghost use Rattle.em_mem.specs.OldOctets.{Keeps};
ghost use Rattle.em_step.specs.Cells.{shows, MorePages};
ghost use Rattle.em_step.specs.Event.{pokes};
ghost use Rattle.em_step.specs.Performed.{WasPerformed, WasRefused};
ghost use Rattle.em_step.specs.Undo.{EffectFits, IsAtBy, KeepsFor, Reverses, changed, held_by, undo_effect, undo_of};
ghost use Rattle.em_step.specs.Cost.{cost_of_effect, least_cost};

use crate::adapter::Adapter;
use crate::event::Answer;
use crate::packed::{address_in, parts_of};
use crate::refusal::Refusal;
use crate::undo::{Effect, Record};
use em_mem::laws::places_are_small;
use em_mem::{OldOctets, Saved};

/// The most octets that one memory write has.
const MOST_POKE: usize = 16_384;

impl Adapter {
    /// Writes octets of guest memory. All that can be refused comes before the first change.
    #[inline(always)]
    pub fn poke(
        &mut self,
        addr: u64,
        octets: &[u8],
        old: &mut OldOctets,
    ) -> Result<(Answer, Record), Refusal>
        ensures ok { IfOk result (λ r.
            WasPerformed self.old (pokes addr octets.now) self.new r.0 (undo_of r.1 old.new)) }
        ensures keeps { IfOk result (λ r. KeepsFor r.1 old.old old.new) }
        ensures err { IfErr result (WasRefused self.old (pokes addr octets.now) self.new) }
        ensures saved { OnErr result (old.new ≡ old.old) }
    {
        if !self.memory.holds(addr, octets.len() as u64) {
            return Err(Refusal::Range);
        }
        if octets.is_empty() || octets.len() > MOST_POKE {
            return Err(Refusal::Length);
        }
        let effect = self.overwrite(addr, octets, old)?;
        Ok((Answer::Done, Record::of_effect(effect)))
    }

    /// Writes octets of guest memory, and saves the old ones.
    #[inline(always)]
    fn overwrite(
        &mut self,
        addr: u64,
        octets: &[u8],
        old: &mut OldOctets,
    ) -> Result<Effect, Refusal>
        requires held { LiesIn (shows self.old).base (shows self.old).memory addr (length octets.now) }
        requires some { 0 < length octets.now }
        requires most { length octets.now ≤ 16_384 }
        ensures state { OnOk result (shows self.new
            ≡ record (shows self.old) { memory = put (shows self.old).memory addr octets.now }) }
        ensures cost { IfOk result (λ effect.
            cost_of_effect (changed effect old.new) ≡ least_cost + length octets.now) }
        ensures reverses { IfOk result (λ effect.
            Reverses self.old self.new (record { latches = []; effect = changed effect old.new })) }
        ensures keeps { IfOk result (λ effect. Keeps (held_by effect) old.old old.new) }
        ensures at { IfOk result (λ effect. IsAtBy effect old.new) }
        ensures err { IfErr result (λ e. e ≡ Refusal.Memory) }
        ensures same { OnErr result (MorePages self.old self.new) }
        ensures saved { OnErr result (old.new ≡ old.old) }
    {
        if self.memory.touch(addr, octets.len() as u64).is_err()
            || old.make_room(octets.len()).is_err()
        {
            return Err(Refusal::Memory);
        }
        places_are_small(&self.memory);
        self.memory.write_saving(addr, octets, old);
        let (high, low) = parts_of(addr);
        Ok(Effect::Octets {
            high,
            len: octets.len() as u16,
            low,
            place: old.place() as u32,
        })
    }

    /// Takes a memory write back.
    #[inline(never)]
    pub(crate) fn take_back_octets(&mut self, high: u8, low: u32, len: u16, old: &Saved<'_>)
        requires room { len ≤ length old.now.octets }
        requires fits { EffectFits self.old (changed (Effect.Octets high len low 0) old.now) }
        ensures { self.new ≡ undo_effect self.old (changed (Effect.Octets high len low 0) old.now) }
    {
        let at = address_in(high, low);
        self.memory.put_saved_back(at, usize::from(len), old);
    }
}
