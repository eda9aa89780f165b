//! A watched thing, followed back over records.
ghost use Rattle.std.specs.Prelude.{◌≡◌, length};
ghost use Rattle.em_regs.specs.Table.{IsRegOf};
ghost use Rattle.em_step.specs.Access.{gives};
ghost use Rattle.em_step.specs.Before.{PutsBack};
ghost use Rattle.em_watch.specs.Traced.{traced, traced_register, traced_octets, shown, IsTraceable};
ghost use Rattle.em_watch.specs.Traced.{IsOctets, octets_of, TakesBack, OctetsGoBack, traced_word};

use crate::range::{MOST_WATCHED, MemoryRange};
use crate::watch::{Sight, Watch};
use em_journal::Machine;
use em_phy::{PhyWord, word_as_read};
use em_regs::{Profile, Reg};
use em_step::Past;

/// What has to be known of a state to see a watched thing in it, and in those before it.
#[derive(Clone, Copy)]
pub(crate) enum Traced {
    /// Nothing is ever seen.
    Nothing,
    /// A register, and what a look at it shows.
    Register(Reg, u32),
    /// A range of memory, and its octets, with zeros behind them.
    Octets(MemoryRange, [u8; MOST_WATCHED]),
    /// The causes that are set, and those that the mask lets through to the line.
    Line(u32, u32),
    /// Whether the link is up.
    Link(bool),
    /// How many frames lie in the FIFO.
    Frames(usize),
    /// How many frames were sent.
    Sent(usize),
    /// A word of the PHY, what it is without a link, and whether there is one.
    Phy(PhyWord, u16, bool),
}

impl Traced {
    /// A watched thing as it is now.
    pub(crate) fn of(machine: &Machine, watch: Watch) -> Traced
        ensures { result ≡ traced watch machine.now.present }
    {
        match watch {
            Watch::Register(reg) => traced_register(machine, reg),
            Watch::Octets(range) => traced_octets(machine, range),
            Watch::Line => Traced::Line(look(machine, Reg::Icr), look(machine, Reg::Ims)),
            Watch::Link => Traced::Link(machine.link()),
            Watch::Frames => Traced::Frames(machine.frames()),
            Watch::Sent => Traced::Sent(machine.wire_len()),
            Watch::Phy(word) => traced_word(machine, word),
        }
    }

    /// What is seen of it.
    #[inline(always)]
    pub(crate) fn sight(self) -> Sight
        ensures { result ≡ shown self }
    {
        match self {
            Traced::Nothing => Sight::Nothing,
            Traced::Register(_, value) => Sight::Value(value),
            Traced::Octets(_, octets) => Sight::Octets(octets),
            Traced::Line(causes, mask) => Sight::Line(causes & mask != 0),
            Traced::Link(up) => Sight::Link(up),
            Traced::Frames(count) | Traced::Sent(count) => Sight::Count(count),
            Traced::Phy(word, value, up) => {
                Sight::Value(u32::from(word_as_read(up, word.number(), value)))
            }
        }
    }

    /// The octets of a range, with zeros behind them.
    pub(crate) fn octets(self) -> [u8; MOST_WATCHED]
        requires { IsOctets self }
        ensures { result ≡ octets_of self }
    {
        match self {
            Traced::Octets(_, octets) => octets,
            _ => unreachable!(),
        }
    }

    /// The watched thing as it was before the event of a record.
    #[inline(always)]
    pub(crate) fn before(self, past: &Past<'_>) -> Traced
        requires { IsTraceable self }
        ensures before { TakesBack past.now self result }
        ensures register { IsTraceable result }
    {
        match self {
            Traced::Nothing => Traced::Nothing,
            Traced::Register(reg, value) => Traced::Register(reg, past.register_before(reg, value)),
            Traced::Octets(range, octets) => Traced::Octets(
                range,
                octets_before(past, range, octets),
            ),
            Traced::Line(causes, mask) => Traced::Line(
                past.register_before(Reg::Icr, causes),
                past.register_before(Reg::Ims, mask),
            ),
            Traced::Link(up) => Traced::Link(past.link_before(up)),
            Traced::Frames(count) => Traced::Frames(past.frames_before(count)),
            Traced::Sent(count) => Traced::Sent(past.sent_before(count)),
            Traced::Phy(word, value, up) => Traced::Phy(
                word,
                past.phy_word_before(word, value),
                past.link_before(up),
            ),
        }
    }
}

/// A register that the machine has, as a look at it shows it.
fn look(machine: &Machine, reg: Reg) -> u32
    requires { IsRegOf machine.now.present.profile reg }
    ensures { result ≡ gives machine.now.present reg }
{
    match machine.look(reg.offset()) {
        Some(value) => value,
        None => unreachable!(),
    }
}

fn traced_register(machine: &Machine, reg: Reg) -> Traced
    ensures { result ≡ traced_register machine.now.present reg }
{
    if reg.index() < reg.row().words && reg.row().since.is_in(machine.profile()) {
        Traced::Register(reg, look(machine, reg))
    } else {
        Traced::Nothing
    }
}

fn traced_octets(machine: &Machine, range: MemoryRange) -> Traced
    ensures { result ≡ traced_octets machine.now.present.base machine.now.present.memory range }
{
    let mut octets = [0; MOST_WATCHED];
    match machine.peek(range.addr(), &mut octets[..range.len()]) {
        Ok(()) => Traced::Octets(range, octets),
        Err(_) => Traced::Nothing,
    }
}

fn traced_word(machine: &Machine, word: PhyWord) -> Traced
    ensures { result ≡ traced_word machine.now.present word }
{
    match machine.profile() {
        Profile::Table => Traced::Nothing,
        Profile::Adapter => {
            let words = machine.adapter().phy().words();
            Traced::Phy(word, words[usize::from(word.number())], machine.link())
        }
    }
}

/// The octets of a range, with zeros behind them, before the event of a record.
#[inline(always)]
fn octets_before(
    past: &Past<'_>,
    range: MemoryRange,
    octets: [u8; MOST_WATCHED],
) -> [u8; MOST_WATCHED]
    ensures { OctetsGoBack past.now range.addr range.len octets result }
{
    let mut window = octets;
    past.octets_before(range.addr(), &mut window[..range.len()]);
    window
}
