//! A receive step's record in fifteen octets, and an address in five: beside the words of the latches a record has
//! sixteen, of which one says what it is of.
ghost use Rattle.std.specs.Prelude.{◌≡◌, ◌%◌, ◌+◌, ◌≤◌, ◌<◌, ◌^◌, if◌then◌else◌};
ghost use Rattle.em_rx.specs.RxStep.{IsSmall};
ghost use Rattle.em_step.specs.Undo.{address, piece, piece_len, place_of};

use em_rx::OldPiece;

/// How many numbers 14 bits have: a piece has so many octets at most. Its length less one is kept; the frame leaves with a
/// piece of one octet, so one that stays with 0 there has no octet.
const LENGTHS: u16 = 0x4000;

/// Above the length: the frame left the FIFO with the piece.
const LEFT: u16 = 0x4000;

/// Above that: the highest bit of the place where octets were saved.
const FAR: u16 = 0x8000;

/// How many numbers the other 24 bits of that place have. Above them lies the highest octet of the address of the
/// descriptor's end.
const PLACES: u32 = 0x100_0000;

/// How many numbers the lower 32 bits of an address have.
const WORDS: u64 = 0x1_0000_0000;

/// The five numbers of a piece, and of the place where its octets were saved.
#[inline]
pub(crate) fn packed(old: &OldPiece, place: usize) -> (u8, u16, u32, u32, u32)
    requires small { IsSmall old.now }
    requires place { place < 2 ^ 25 }
    ensures piece { piece result.0 result.1 result.2 result.3 result.4 ≡ old.now }
    ensures place { place_of result.1 result.4 ≡ place }
{
    let left = flag(old.left, LEFT);
    let far = flag(place >= PLACES as usize, FAR);
    let near = place as u32 % PLACES;
    let (high, low) = parts_of(old.buffer);
    let (top, end) = parts_of(old.end_at);
    (
        high,
        old.len.saturating_sub(1) + left + far,
        low,
        end,
        u32::from(top) * PLACES + near,
    )
}

/// A bit, where it is set.
#[inline]
fn flag(set: bool, bit: u16) -> u16
    ensures flag { result ≡ (if set then bit else 0) }
    ensures most { result ≤ bit }
{
    if set { bit } else { 0 }
}

/// The piece of five numbers.
#[inline]
pub(crate) fn piece_of(high: u8, word: u16, low: u32, end: u32, rest: u32) -> OldPiece
    ensures piece { result ≡ piece high word low end rest }
    ensures buffer { result.buffer < 2 ^ 40 }
    ensures end { result.end_at < 2 ^ 40 }
{
    OldPiece {
        buffer: address_in(high, low),
        end_at: address_in((rest / PLACES) as u8, end),
        len: len_of(word),
        left: word / LEFT % 2 == 1,
    }
}

/// How many octets the piece has.
#[inline]
pub(crate) fn len_of(word: u16) -> u16
    ensures len { result ≡ piece_len word }
    ensures most { result ≤ 16_384 }
{
    if word % FAR == 0 {
        return 0;
    }
    word % LENGTHS + 1
}

/// The place where its octets were saved.
#[inline]
pub(crate) fn place_in(word: u16, rest: u32) -> usize
    ensures { result ≡ place_of word rest }
{
    (rest % PLACES) as usize + PLACES as usize * usize::from(word / FAR)
}

/// The two parts of an address: its highest octet, and the 32 bits below.
#[inline]
pub(crate) fn parts_of(addr: u64) -> (u8, u32)
    requires { addr < 2 ^ 40 }
    ensures { address result.0 result.1 ≡ addr }
{
    ((addr / WORDS) as u8, (addr % WORDS) as u32)
}

/// The address of two parts.
#[inline]
pub(crate) fn address_in(high: u8, low: u32) -> u64
    ensures address { result ≡ address high low }
    ensures most { result < 2 ^ 40 }
{
    u64::from(low) + WORDS * u64::from(high)
}
