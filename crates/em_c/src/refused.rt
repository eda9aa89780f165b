//! Why a call did nothing, and the number of each reason.
ghost use Rattle.std.specs.Prelude.{◌≡◌};
ghost use Rattle.em_c.specs.Refused.{number_of, of_event, number, Shows};

use em_step::Refusal;

/// The number that a call gives where nothing refused it.
pub const DONE: u32 = 0;

/// Why a call did nothing. Each reason has a number of its own. From 38 to 45 they are those of bindings/c, which
/// lies over the calls.
#[derive(Clone, Copy)]
pub enum Refused {
    /// No register lies at the offset.
    NoRegister = 1,
    /// The range leaves guest memory.
    Range = 2,
    /// A memory write outside 1 to 16,384 octets, or a frame outside 14 to 20,000.
    Length = 3,
    /// A descriptor or its buffer leaves guest memory.
    DmaRange = 4,
    /// A transmit descriptor is extended (DEXT).
    Extended = 5,
    /// The gathered octets would exceed 16,380.
    TooLong = 6,
    /// The host refused memory.
    Memory = 9,
    /// The budget lies outside 65,536 to 16,777,216.
    Budget = 24,
    /// The handle holds no machine.
    NoMachine = 26,
    /// The handle holds a machine already.
    HasMachine = 27,
    /// Guest memory can not have that size, or not lie there.
    Size = 28,
    /// So many frames were not sent.
    NoFrame = 29,
    /// What is told has more octets than there is room for.
    Room = 30,
    /// The journal does not hold so many events.
    NoEvent = 31,
    /// The journal holds no change of what is watched.
    NoChange = 32,
    /// A watch of a kind that there is not.
    NoWatch = 33,
    /// No register has the name.
    NoName = 34,
    /// No refusal has the number.
    NoRefusal = 35,
    /// There is no ring of the number.
    NoRing = 36,
    /// The ring has no descriptor of the index.
    NoDescriptor = 37,
    /// A function of the attached memory made the call.
    Busy = 38,
    /// The caller's memory was not read: its function gave false, or no region has all octets.
    Unread = 39,
    /// The caller's memory was not written: its function gave false, or no region has all octets.
    Unwritten = 40,
    /// What is attached has neither both functions nor a region.
    NoRam = 41,
    /// A run is kept from its first event on, and the machine has performed one.
    Begun = 42,
    /// The run is kept already.
    Recorded = 43,
    /// The file was not opened, or not written.
    File = 44,
    /// The run is not kept.
    Unrecorded = 45,
    /// An access of a register that has not four octets.
    Width = 46,
    /// The handle holds no capture.
    NoCapture = 47,
    /// The handle holds a capture already.
    HasCapture = 48,
    /// Each frame of the capture was handed over, and it ends there.
    CaptureEnd = 49,
    /// The capture's file, or a section of it, begins with no number that is known.
    CaptureMagic = 50,
    /// The capture, or a section of it, has a version that is not known.
    CaptureVersion = 51,
    /// The capture is cut within a header, a record or a block.
    CaptureCut = 52,
    /// A block of the capture has a wrong length.
    CaptureBlock = 53,
    /// The capture has another link type than Ethernet.
    CaptureLink = 54,
    /// A packet of the capture has more octets than its snap length or its block allows.
    CaptureLength = 55,
    /// A packet of the capture is of an interface that its section has not described.
    CaptureInterface = 56,
    /// There is no profile of the number.
    NoProfile = 57,
    /// The octets of a machine do not begin with BUNJELAV.
    StoredMagic = 58,
    /// The octets of a machine have a version that is not known.
    StoredVersion = 59,
    /// The octets of a machine are not as many as they say.
    StoredLength = 60,
    /// The octets of a machine have another check sum than they say.
    StoredSum = 61,
    /// No machine is stored as these octets.
    StoredValue = 62,
}

impl Refused {
    /// The number of the reason.
    pub fn number(self) -> u32
        ensures { result ≡ number_of self }
    {
        self as u32
    }

    /// Why an event was refused.
    pub fn of_event(refusal: Refusal) -> Refused
        ensures { result ≡ of_event refusal }
    {
        match refusal {
            Refusal::NoRegister => Refused::NoRegister,
            Refusal::Range => Refused::Range,
            Refusal::Length => Refused::Length,
            Refusal::DmaRange => Refused::DmaRange,
            Refusal::Extended => Refused::Extended,
            Refusal::TooLong => Refused::TooLong,
            Refusal::Memory => Refused::Memory,
        }
    }
}

/// The number that a call gives for an outcome.
pub fn number<T: Drop>(outcome: Result<T, Refused>) -> u32
    ensures { result ≡ number outcome }
{
    match outcome {
        Ok(_) => DONE,
        Err(refused) => refused.number(),
    }
}

/// The number that a call gives for an outcome, of which the value goes where it is wanted. A refusal leaves what was
/// there.
pub fn tell<T: Drop>(outcome: Result<T, Refused>, place: &mut T) -> u32
    ensures { Shows outcome place.old result place.new }
{
    match outcome {
        Ok(value) => {
            *place = value;
            DONE
        }
        Err(refused) => refused.number(),
    }
}
