//! Interface descriptions of pcapng files, and their options.
ghost use Rattle.std.specs.Prelude.{◌≡◌, ◌≤◌, length, option_map};
ghost use Rattle.em_pcap.specs.Step.{IsWithin};
ghost use Rattle.em_pcap.specs.Options.{option_value, padded, tick_in, tick_or_usual, tick_of, fcs_or_none, fcs_of};
ghost use Rattle.em_pcap.specs.Blocks.{block_total_length, interface_step};

use crate::block::LENGTH_AGAIN;
use crate::fault::FaultKind;
use crate::fcs::fcs_in;
use crate::form::{Interface, Step};
use crate::link::link_of;
use crate::order::Order;

/// Where the fields of a description lie that are read.
const LINK_TYPE: usize = 8;

const SNAP_LEN: usize = 12;

const OPTIONS: usize = 16;

/// The octets of a word, to which options are padded.
const WORD: usize = 4;

/// The octets of an option's code and length.
const OPTION_HEAD: usize = 4;

/// Where these lie.
const OPTION_CODE: usize = 0;

const OPTION_LENGTH: usize = 2;

/// The code of the end of options.
const END_OF_OPTIONS: u16 = 0;

/// The code of the option that says how fine a clock is.
const RESOLUTION: u16 = 9;

/// The code of the option that says which frame check sequence the frames have.
const FCS_LENGTH: u16 = 13;

/// The code of the option that says how many seconds are to be added.
const OFFSET: u16 = 14;

/// How many nanoseconds a clock counts as one where no option says it.
const USUAL_TICK: u64 = 1000;

/// How many nanoseconds a second, a tenth of it, and so on down to a billionth has.
const DECIMAL_TICKS: [u64; 10] = [
    1_000_000_000,
    100_000_000,
    10_000_000,
    1_000_000,
    100_000,
    10_000,
    1_000,
    100,
    10,
    1,
];

/// An interface description of so many octets.
pub(crate) fn interface_step(own: [u8; 6], order: Order, block: &[u8], len: usize) -> Step
    requires len { len ≡ block_total_length order block.now }
    requires fields { 20 ≤ len }
    requires whole { len ≤ length block.now }
    ensures step { result ≡ interface_step own order block.now }
    ensures within { IsWithin (length block.now) result }
{
    let kind = order.u16_at(block, LINK_TYPE);
    let snap = order.u32_at(block, SNAP_LEN);
    let options = &block[OPTIONS..len - LENGTH_AGAIN];
    let Some(link) = link_of(own, kind, fcs_of(order, options)) else {
        return Step::Stops(FaultKind::LinkType);
    };
    let tick = tick_of(order, options);
    Step::Adds(len, Interface { snap, link, tick })
}

/// How many octets of a frame check sequence follow each frame of an interface, by its options.
#[tactic(auto, unfolding(crate::specs::Options::fcs_of))]
fn fcs_of(order: Order, options: &[u8]) -> Option<u32>
    ensures { result ≡ fcs_of order options.now }
{
    fcs_or_none(option_value(order, FCS_LENGTH, options))
}

/// The same by an option's value, or without one.
fn fcs_or_none(said: Option<&[u8]>) -> Option<u32>
    ensures { result ≡ fcs_or_none (option_map (λ value. value.now) said.entry) }
{
    match said {
        None => Some(0),
        Some(value) => fcs_in(value),
    }
}

/// How many nanoseconds an interface's clock counts as one, by its options.
#[tactic(auto, unfolding(crate::specs::Options::tick_of))]
fn tick_of(order: Order, options: &[u8]) -> Option<u64>
    ensures { result ≡ tick_of order options.now }
{
    match option_value(order, OFFSET, options) {
        Some(_) => None,
        None => usual_or(option_value(order, RESOLUTION, options)),
    }
}

/// The same by an option's value, or without one.
fn usual_or(resolution: Option<&[u8]>) -> Option<u64>
    ensures { result ≡ tick_or_usual (option_map (λ value. value.now) resolution.entry) }
{
    match resolution {
        None => Some(USUAL_TICK),
        Some(value) => tick_in(value),
    }
}

/// The same by an option's value.
fn tick_in(resolution: &[u8]) -> Option<u64>
    ensures { result ≡ tick_in resolution.now }
{
    match resolution {
        [power] => DECIMAL_TICKS.get(usize::from(*power)).copied(),
        _ => None,
    }
}

/// The value of the first option with a code.
fn option_value(order: Order, code: u16, options: &[u8]) -> Option<&[u8]>
    ensures { option_map (λ value. value.now) result ≡ option_value order code 0 options.now }
{
    let mut rest = options;
    while rest.len() >= OPTION_HEAD {
        let found = order.u16_at(rest, OPTION_CODE);
        let len = usize::from(order.u16_at(rest, OPTION_LENGTH));
        if found == END_OF_OPTIONS {
            return None;
        }
        if rest.len() < OPTION_HEAD + len {
            return None;
        }
        if found == code {
            return Some(&rest[OPTION_HEAD..OPTION_HEAD + len]);
        }
        let next = OPTION_HEAD + padded(len);
        rest = &rest[next.min(rest.len())..];
    }
    None
}

/// So many octets and their padding to whole words.
fn padded(len: usize) -> usize
    requires { len ≤ 0xFFFF }
    ensures { result ≡ padded len }
{
    len.next_multiple_of(WORD)
}
