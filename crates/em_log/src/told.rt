//! What a line tells, before it is known where the registers lie.
ghost use Rattle.std.specs.Prelude.{◌≡◌};
ghost use Rattle.em_log.specs.Told.{octets_of, width_of, fits, access_of};

/// Which way an access goes.
#[derive(Clone, Copy, PartialEq, Eq)]
pub enum Way {
    Read,
    Write,
}

/// How many octets an access has.
#[derive(Clone, Copy, PartialEq, Eq)]
pub enum Width {
    One,
    Two,
    Four,
    Eight,
}

/// An access at an address.
#[derive(Clone, Copy)]
pub struct Access {
    pub way: Way,
    pub address: u64,
    pub width: Width,
    /// None of a read whose value the line does not have.
    pub value: Option<u64>,
}

/// What a line tells.
#[derive(Clone, Copy)]
pub(crate) enum Told {
    Access(Access),
    /// An access of another memory region.
    Elsewhere,
    /// The registers lie from this address on.
    Base(u64),
    /// A write into guest memory.
    Memory,
    /// It is a line of another kind.
    Nothing,
    /// It begins as an access, and can't be read.
    Fault,
}

impl Width {
    /// How many octets these are.
    pub fn octets(self) -> u64
        ensures { result ≡ octets_of self }
    {
        match self {
            Width::One => 1,
            Width::Two => 2,
            Width::Four => 4,
            Width::Eight => 8,
        }
    }

    /// The width of so many octets, if an access can have them.
    fn of(octets: u64) -> Option<Width>
        ensures { result ≡ width_of octets }
    {
        match octets {
            1 => Some(Width::One),
            2 => Some(Width::Two),
            4 => Some(Width::Four),
            8 => Some(Width::Eight),
            _ => None,
        }
    }

    /// Whether a value has no more octets.
    fn fits(self, value: u64) -> bool
        ensures { result ≡ fits self value }
    {
        match self {
            Width::One => value < 0x100,
            Width::Two => value < 0x1_0000,
            Width::Four => value < 0x1_0000_0000,
            Width::Eight => true,
        }
    }
}

/// An access, where each of its numbers is there and its value fits.
pub(crate) fn access_of(
    way: Way,
    address: Option<u64>,
    value: Option<u64>,
    octets: Option<u64>,
) -> Told
    ensures { result ≡ access_of way address value octets }
{
    let Some(address) = address else {
        return Told::Fault;
    };
    let Some(value) = value else {
        return Told::Fault;
    };
    let Some(octets) = octets else {
        return Told::Fault;
    };
    let Some(width) = Width::of(octets) else {
        return Told::Fault;
    };
    if !width.fits(value) {
        return Told::Fault;
    }
    Told::Access(Access {
        way,
        address,
        width,
        value: Some(value),
    })
}
