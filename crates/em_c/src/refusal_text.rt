//! What the refusals are called, and what each says.
ghost use Rattle.std.specs.Prelude.{◌≡◌, ◌↔◌, IfSome, IsNone};
ghost use Rattle.em_c.specs.Refused.{number, number_of, told, Shows};
ghost use Rattle.em_c.specs.Looks.{text_into, length_of};
ghost use Rattle.em_c.specs.RefusalText.{text_of, text_at, with_number};

use crate::refused::{Refused, number};
use crate::room::lay_text;

/// The name of a refusal, and a sentence, with a zero octet behind them; how many octets they have is told also where
/// there is no room for them.
#[unsafe(no_mangle)]
pub extern "C" fn em_refusal(code: u32, out: &mut [u8], octets: &mut usize) -> u32
    ensures text { Shows (text_into out.old (text_at code)) out.old result out.new }
    ensures octets { octets.new ≡ told octets.old (length_of (text_at code)) }
{
    match with_number(code) {
        Some(refused) => number(lay_text(text_of(refused).as_bytes(), out, octets)),
        None => Refused::NoRefusal.number(),
    }
}

/// The refusal that has a number.
fn with_number(code: u32) -> Option<Refused>
    ensures { result ≡ with_number code }
{
    match code {
        1 => Some(Refused::NoRegister),
        2 => Some(Refused::Range),
        3 => Some(Refused::Length),
        4 => Some(Refused::DmaRange),
        5 => Some(Refused::Extended),
        6 => Some(Refused::TooLong),
        9 => Some(Refused::Memory),
        24 => Some(Refused::Budget),
        26 => Some(Refused::NoMachine),
        27 => Some(Refused::HasMachine),
        28 => Some(Refused::Size),
        29 => Some(Refused::NoFrame),
        30 => Some(Refused::Room),
        31 => Some(Refused::NoEvent),
        32 => Some(Refused::NoChange),
        33 => Some(Refused::NoWatch),
        34 => Some(Refused::NoName),
        35 => Some(Refused::NoRefusal),
        36 => Some(Refused::NoRing),
        37 => Some(Refused::NoDescriptor),
        38 => Some(Refused::Busy),
        39 => Some(Refused::Unread),
        40 => Some(Refused::Unwritten),
        41 => Some(Refused::NoRam),
        42 => Some(Refused::Begun),
        43 => Some(Refused::Recorded),
        44 => Some(Refused::File),
        45 => Some(Refused::Unrecorded),
        46 => Some(Refused::Width),
        47 => Some(Refused::NoCapture),
        48 => Some(Refused::HasCapture),
        49 => Some(Refused::CaptureEnd),
        50 => Some(Refused::CaptureMagic),
        51 => Some(Refused::CaptureVersion),
        52 => Some(Refused::CaptureCut),
        53 => Some(Refused::CaptureBlock),
        54 => Some(Refused::CaptureLink),
        55 => Some(Refused::CaptureLength),
        56 => Some(Refused::CaptureInterface),
        57 => Some(Refused::NoProfile),
        58 => Some(Refused::StoredMagic),
        59 => Some(Refused::StoredVersion),
        60 => Some(Refused::StoredLength),
        61 => Some(Refused::StoredSum),
        62 => Some(Refused::StoredValue),
        _ => None,
    }
}

/// A refusal's name, and what it says.
fn text_of(refused: Refused) -> &'static str
    ensures { result.now ≡ text_of refused }
{
    match refused {
        Refused::NoRegister => "NoRegister: no register lies at the offset",
        Refused::Range => "Range: the octets leave guest memory",
        Refused::Length => "Length: too few octets, or too many",
        Refused::DmaRange => "DmaRange: a descriptor or its buffer leaves guest memory",
        Refused::Extended => "Extended: a transmit descriptor has DEXT",
        Refused::TooLong => "TooLong: a frame's buffers hold more than 16,380 octets together",
        Refused::Memory => "Memory: the host gave no memory",
        Refused::Budget => "Budget: the budget lies outside 65,536 to 16,777,216",
        Refused::NoMachine => "NotMade: the handle holds no machine",
        Refused::HasMachine => "MadeAlready: the handle holds a machine already",
        Refused::Size => "Size: guest memory can not have that size, or not lie there",
        Refused::NoFrame => "NoFrame: so many frames were not sent",
        Refused::Room => "Room: there is no room for what is told",
        Refused::NoEvent => "NoEvent: the journal does not hold so many events",
        Refused::NoChange => "NoChange: no event of the journal changed what is watched",
        Refused::NoWatch => "NoWatch: there is no such kind of watch",
        Refused::NoName => "NoName: no register has the name",
        Refused::NoRefusal => "NoRefusal: no refusal has the number",
        Refused::NoRing => "NoRing: the rings are 1, which receives, and 2, which transmits",
        Refused::NoDescriptor => "NoDescriptor: the ring has no descriptor of the index",
        Refused::Busy => "Busy: a function of the caller's memory made the call",
        Refused::Unread => "Unread: the caller's memory was not read",
        Refused::Unwritten => "Unwritten: the caller's memory was not written",
        Refused::NoRam => "NoRam: the caller's memory has two functions, or a table of regions",
        Refused::Begun => "Begun: a run is kept from its first event on",
        Refused::Recorded => "Recorded: the run is kept already",
        Refused::File => "File: the file was not opened, or not written",
        Refused::Unrecorded => "Unrecorded: the run is not kept",
        Refused::Width => "Width: registers are accessed by four octets",
        Refused::NoCapture => "NotOpen: the handle holds no capture",
        Refused::HasCapture => "OpenAlready: the handle holds a capture already",
        Refused::CaptureEnd => "CaptureEnd: no frame of the capture is left",
        Refused::CaptureMagic => "CaptureMagic: the capture's magic number is not known",
        Refused::CaptureVersion => "CaptureVersion: the capture's version is not known",
        Refused::CaptureCut => "CaptureCut: the capture is cut short",
        Refused::CaptureBlock => "CaptureBlock: a block of the capture has a wrong length",
        Refused::CaptureLink => "CaptureLink: the capture's link type is not Ethernet",
        Refused::CaptureLength => "CaptureLength: a captured length is too large",
        Refused::CaptureInterface => "CaptureInterface: a packet's interface is not described",
        Refused::NoProfile => "NoProfile: the profiles are 0, the table, and 1, the adapter",
        Refused::StoredMagic => "StoredMagic: the octets do not begin with BUNJELAV",
        Refused::StoredVersion => "StoredVersion: the octets' version is not known",
        Refused::StoredLength => "StoredLength: the octets are not as many as they say",
        Refused::StoredSum => "StoredSum: the octets have another check sum",
        Refused::StoredValue => "StoredValue: no machine is stored so",
    }
}
