//! What the definitions of steps and records say together.
ghost use Rattle.std.specs.Prelude.{◌≡◌, ◌≢◌, ◌⊎◌, ◌+◌, ◌≤◌, ◌<◌, [], ◌∷◌, ℕ, true, false, All, List, None, Ok};
ghost use Rattle.std.specs.Prelude.{length, take};
ghost use Rattle.em_mem.specs.Needs.{AgreeOn};
ghost use Rattle.em_regs.specs.declared.profile.Profile.{Profile};
ghost use Rattle.em_regs.specs.declared.reg.Reg.{Reg};
ghost use Rattle.em_regs.specs.Table.{is_stored, offset_of};
ghost use Rattle.em_regs.specs.RegFile.{IsStored, address_low, address_high, eerd_value, left_at, put_eerd};
ghost use Rattle.em_regs.specs.Setup.{rx_setup, tx_setup, value_of};
ghost use Rattle.em_eeprom.specs.Eeprom.{IsEeprom, mac_of};
ghost use Rattle.em_filter.specs.Bits.{takes_long, vme};
ghost use Rattle.em_pins.specs.Wire.{IsSelected, clocks_in, clocks_out, number_from, read_command};
ghost use Rattle.em_rx.specs.Frame.{Frame};
ghost use Rattle.em_rx.specs.Receive.{descriptor, is_null};
ghost use Rattle.em_step.specs.State.{State, status};
ghost use Rattle.em_step.specs.Access.{gives, reset, after_eeprom_read};
ghost use Rattle.em_step.specs.Arrival.{keeps_sequence};
ghost use Rattle.em_step.specs.Cells.{Cells, fresh_as, shows, MorePages};
ghost use Rattle.em_step.specs.Undo.{Fits, Undo, undo};
ghost use Rattle.em_step.specs.Engines.{rx_control};
ghost use Rattle.em_step.specs.Event.{Event, arrives, receives, transmits};
ghost use Rattle.em_step.specs.Needs.{over, rx_needs, taken_into, tx_needs};
ghost use Rattle.em_step.specs.Step.{step};
ghost use Rattle.em_step.specs.Whole.{Admits, IsPlain, IsWhole, KeepsAllButFifo, ReceivesWhole, SendsWhole};
ghost use Rattle.em_step.specs.Cost.{cost, most_cost};
ghost use Rattle.em_step.specs.declared.event.Answer.{Answer};

use crate::adapter::Adapter;
use em_pins::laws::words_come_out;
use em_regs::Reg;

/// More made pages show the same, and leave each record fitting.
pub fn made_pages()
    ensures shown { (c d : Cells) → MorePages c d → shows d ≡ shows c }
    ensures fits { (c d : Cells) (r : Undo) → MorePages c d → Fits c r → Fits d r }
    ensures undone { (c d : Cells) (r : Undo) → MorePages c d → MorePages (undo c r) (undo d r) }
{}

/// No performed event costs more than the least budget of a journal.
pub fn costs_are_small()
    ensures { (s : State) (e : Event) (r : Answer × State) → step s e ≡ Ok r → cost s e ≤ most_cost }
{}

/// After a reset every register that keeps what is written has its start value, but the first receive address, which is
/// the EEPROM's and valid: 0 in the first profile, and in the second PBA keeps what it held. Every other register reads
/// 0, but STATUS, which follows the link, and EECD and MDIC, which stay.
pub fn a_reset_leaves_start_values()
    ensures stored { (s : State) (reg : Reg) → IsStored reg → reg ≢ Reg.Ral 0 → reg ≢ Reg.Rah 0 →
        gives (reset s) reg ≡ left_at s.profile s.registers (offset_of reg) }
    ensures zero { (s : State) (reg : Reg) → is_stored reg ≡ false →
        reg ≢ Reg.Status → reg ≢ Reg.Eecd → reg ≢ Reg.Mdic → gives (reset s) reg ≡ 0 }
    ensures status { (s : State) → gives (reset s) Reg.Status ≡ status s }
    ensures pins { (s : State) → gives (reset s) Reg.Eecd ≡ gives s Reg.Eecd }
    ensures phy { (s : State) → gives (reset s) Reg.Mdic ≡ gives s Reg.Mdic }
    ensures low { (s : State) → gives (reset s) (Reg.Ral 0) ≡ address_low (mac_of s.eeprom) }
    ensures high { (s : State) → gives (reset s) (Reg.Rah 0) ≡ address_high (mac_of s.eeprom) + 0x8000_0000 }
{}

/// A new adapter is one that was reset.
pub fn a_new_adapter_is_reset()
    ensures { (profile : Profile) (base size : ℕ) (eeprom : List ℕ) →
        shows (fresh_as profile base size eeprom) ≡ reset (shows (fresh_as profile base size eeprom)) }
{}

/// No event changes the profile.
pub fn a_profile_stays()
    ensures { (s : State) (e : Event) (r : Answer × State) → step s e ≡ Ok r → r.1.profile ≡ s.profile }
{}

/// Where each frame has one descriptor and lies whole in its buffer of 2,048 octets, with no VLAN tag and no check sequence:
/// an arrival puts the frame as it is at the FIFO's end or drops it, a receive step takes the FIFO's
/// first frame whole into its buffer, and a transmit step sends the packet of its descriptor, padded.
pub fn whole_frames()
    ensures arrives { (s : State) (f : List ℕ) (r : Answer × State) → step s (arrives f) ≡ Ok r →
        takes_long s.profile s.registers ≡ false → vme s.registers ≡ false → keeps_sequence s ≡ false →
        KeepsAllButFifo s r.1 × Admits s f r.0 r.1 }
    ensures receives { (s : State) (r : Answer × State) → step s receives ≡ Ok r →
        (rx_setup s.registers).buffer ≡ 2048 → s.fifo.taken ≡ 0 → All IsPlain s.fifo.frames →
        is_null (rx_control s) (descriptor (rx_control s) s.memory) ≡ false →
        (r.1 ≡ s) ⊎ ((f : List ℕ) × (frames : List Frame) × ReceivesWhole s f frames r.1) }
    ensures transmits { (s : State) (r : Answer × State) → step s transmits ≡ Ok r →
        (tx_setup s.registers).vlan ≡ None → (tx_setup s.registers).pad ≡ true → s.gathered ≡ [] →
        (value_of s.registers Reg.Tdh ≢ value_of s.registers Reg.Tdt → IsWhole s) →
        (r.1 ≡ s) ⊎ SendsWhole s r.1 }
{}

/// An adapter's EEPROM has 64 words of 16 bits.
pub fn an_eeprom_is_whole(adapter: &Adapter)
    ensures { IsEeprom (shows adapter.now).eeprom }
{
    let _words = adapter.eeprom();
}

/// No event changes a word of the EEPROM, and a read of it above address 63 gives 0.
pub fn an_eeprom_stays()
    ensures stays { (s : State) (e : Event) (r : Answer × State) → step s e ≡ Ok r → r.1.eeprom ≡ s.eeprom }
    ensures above { (s : State) (a : ℕ) → IsEeprom s.eeprom → 64 ≤ a →
        after_eeprom_read s a ≡ record s { registers = put_eerd s.registers a 0 } }
{}

/// What software clocks out of EECD, bit by bit, is the word that a read of EERD gives.
pub fn eecd_gives_what_eerd_gives()
    ensures { (s : State) (k a : ℕ) → k < 8 → a < 64 → IsEeprom s.eeprom → IsSelected s.pins k →
        gives (after_eeprom_read s a) Reg.Eerd
        ≡ eerd_value a (number_from 0 (clocks_out s.eeprom (clocks_in s.pins k (read_command a)) k 16)) }
{
    words_come_out();
}

/// A step of an engine depends on no other octets of guest memory than those that it reads, and it changes none but
/// those that it writes. So a guest whose memory lies elsewhere needs no copy of all of it here, but of these ranges.
pub fn needs()
    // of memories of one size no octet says what is read first, and the first octets what else is read and written
    ensures rx_first { (s : State) (n : List ℕ) → length s.memory ≡ length n →
        take 1 (rx_needs s).reads ≡ take 1 (rx_needs (over s n)).reads }
    ensures tx_first { (s : State) (n : List ℕ) → length s.memory ≡ length n →
        take 1 (tx_needs s).reads ≡ take 1 (tx_needs (over s n)).reads }
    ensures rx_others { (s : State) (n : List ℕ) → AgreeOn s.memory n (take 1 (rx_needs (over s n)).reads) →
        rx_needs s ≡ rx_needs (over s n) }
    ensures tx_others { (s : State) (n : List ℕ) → AgreeOn s.memory n (take 1 (tx_needs (over s n)).reads) →
        tx_needs s ≡ tx_needs (over s n) }
    // where n agrees on all that is read, a step over the adapter's memory is that over n, with the octets that this
    // one wrote
    ensures receives { (s : State) (n : List ℕ) → AgreeOn s.memory n (rx_needs (over s n)).reads →
        step s receives ≡ taken_into s.memory (rx_needs (over s n)).writes (step (over s n) receives) }
    ensures transmits { (s : State) (n : List ℕ) → AgreeOn s.memory n (tx_needs (over s n)).reads →
        step s transmits ≡ taken_into s.memory (tx_needs (over s n)).writes (step (over s n) transmits) }
{}
