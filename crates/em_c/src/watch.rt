//! Who changed this last?
ghost use Rattle.std.specs.Prelude.{◌≡◌, ◌⊎◌, ◌<◌, ◌≤◌, IsTrue, IfOk, IfErr};
ghost use Rattle.em_mem.specs.Memory.{LiesIn, leaves};
ghost use Rattle.em_c.specs.Watch.{IsWatch, IsNoWatch, change_of, octets_of, value_of, FindsChange};

use crate::handle::EmMachine;
use crate::memory::leaves;
use crate::refused::{DONE, Refused};
use em_journal::Machine;
use em_phy::PhyWord;
use em_regs::Reg;
use em_watch::{Change, MemoryRange, Sight, Watch};

/// How many octets are watched at most.
pub const MOST_OCTETS: usize = 16;

/// The number of the PHY's last word.
const LAST_PHY_WORD: u32 = 31;

/// What is watched.
#[repr(C)]
#[derive(Clone, Copy)]
pub struct EmWatch {
    /// 1: a register; 2: octets of guest memory; 3: the interrupt line; 4: the link; 5: how many frames lie in the
    /// FIFO; 6: how many frames were sent; 7: a word of the PHY, as a read of it by MDIC gives it.
    pub kind: u32,
    /// Of a register, its offset; of a word of the PHY, its number.
    pub offset: u32,
    /// Of octets, where they begin.
    pub address: u64,
    /// Of octets, how many.
    pub octets: usize,
}

/// A change of what is watched.
#[repr(C)]
#[derive(Clone, Copy)]
pub struct EmChange {
    /// How many steps back lead before the event that made it: the newest event is 1.
    pub back: usize,
    /// What was seen before it, but for octets: of the line and the link 1 or 0.
    pub value: u64,
    /// The octets that were seen before it, and zeros behind them.
    pub before: [u8; MOST_OCTETS],
}

/// The newest change of what is watched, among the events of the journal.
#[unsafe(no_mangle)]
pub extern "C" fn em_last_change(
    machine: &mut EmMachine,
    watch: &EmWatch,
    change: &mut EmChange,
) -> u32
    ensures found { FindsChange machine.old.sealed.held watch.now change.old result change.new }
    ensures same { machine.new.sealed.held ≡ machine.old.sealed.held }
{
    let held = match machine.held() {
        Ok(held) => held,
        Err(refused) => return refused.number(),
    };
    let watched = watch_of(*watch, held.looked_at());
    let found = match watched {
        Ok(watch) => em_watch::last_change(held.looked_at(), watch),
        Err(_) => None,
    };
    match (watched, found) {
        (Err(refused), _) => refused.number(),
        (Ok(_), None) => Refused::NoChange.number(),
        (Ok(_), Some(found)) => {
            *change = change_of(found);
            DONE
        }
    }
}

/// What a caller watches of a machine, or why it is nothing.
fn watch_of(watch: EmWatch, machine: &Machine) -> Result<Watch, Refused>
    ensures ok { IfOk result (IsWatch watch machine.now.present) }
    ensures err { IfErr result (IsNoWatch watch machine.now.present) }
{
    match watch.kind {
        1 => match Reg::of_offset_in(machine.profile(), watch.offset) {
            Some(reg) => Ok(Watch::Register(reg)),
            None => Err(Refused::NoRegister),
        },
        2 => octets_watch(watch.address, watch.octets, machine),
        3 => Ok(Watch::Line),
        4 => Ok(Watch::Link),
        5 => Ok(Watch::Frames),
        6 => Ok(Watch::Sent),
        7 => phy_watch(watch.offset),
        _ => Err(Refused::NoWatch),
    }
}

/// The word of the PHY of a number.
fn phy_watch(number: u32) -> Result<Watch, Refused>
    ensures ok { IfOk result (λ watch. (word : PhyWord) × (watch ≡ Watch.Phy word) × (number ≡ word.number)) }
    ensures err { IfErr result (λ refused. (refused ≡ Refused.NoRegister) × (31 < number)) }
{
    if number > LAST_PHY_WORD {
        return Err(Refused::NoRegister);
    }
    match PhyWord::new(number as u8) {
        Some(word) => Ok(Watch::Phy(word)),
        None => unreachable!(),
    }
}

/// So many octets from an address on, in guest memory.
fn octets_watch(address: u64, octets: usize, machine: &Machine) -> Result<Watch, Refused>
    ensures ok { IfOk result (λ watch. (range : MemoryRange) × (watch ≡ Watch.Octets range) × (range.addr ≡ address)
        × (range.len ≡ octets) × LiesIn machine.now.present.base machine.now.present.memory address octets) }
    ensures err { IfErr result (λ refused.
        ((refused ≡ Refused.Length) × ((octets ≡ 0) ⊎ (16 < octets)))
        ⊎ ((refused ≡ Refused.Range) × (0 < octets) × (octets ≤ 16)
        × IsTrue (leaves machine.now.present.base machine.now.present.memory address octets))) }
{
    let Some(range) = MemoryRange::new(address, octets) else {
        return Err(Refused::Length);
    };
    if leaves(machine, address, octets) {
        return Err(Refused::Range);
    }
    Ok(Watch::Octets(range))
}

/// A change, as C sees it.
fn change_of(change: Change) -> EmChange
    ensures { result ≡ change_of change }
{
    EmChange {
        back: change.back,
        value: value_of(change.before),
        before: octets_of(change.before),
    }
}

/// What was seen as a number.
pub fn value_of(sight: Sight) -> u64
    ensures { result ≡ value_of sight }
{
    match sight {
        Sight::Nothing | Sight::Octets(_) => 0,
        Sight::Value(value) => u64::from(value),
        Sight::Line(is) | Sight::Link(is) => { if is { 1 } else { 0 } }
        Sight::Count(count) => count as u64,
    }
}

/// What was seen as octets.
pub fn octets_of(sight: Sight) -> [u8; MOST_OCTETS]
    ensures { result ≡ octets_of sight }
{
    match sight {
        Sight::Octets(octets) => octets,
        _ => [0; MOST_OCTETS],
    }
}
