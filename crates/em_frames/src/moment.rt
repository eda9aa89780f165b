//! Times as logs and scripts write them.
ghost use Rattle.std.specs.Prelude.{◌≡◌, ◌<◌, ◌^◌, IfSome};
ghost use Rattle.em_frames.specs.Moment.{digits_behind, is_digit, number_in, time_in};

/// How many digits stand behind the point.
const FRACTION: usize = 6;

const POINT: u8 = b'.';

/// How many nanoseconds a second has.
const SECOND: u64 = 1_000_000_000;

/// How many nanoseconds a microsecond has.
const MICROSECOND: u64 = 1_000;

/// A number that is read is below this one.
const LIMIT: u64 = 4_294_967_296;

/// The time that a text is, in nanoseconds: seconds below 2^32, a point, and six digits of microseconds, as `1.500100`. None of
/// any other text.
pub fn time_in(text: &[u8]) -> Option<u64>
    ensures { result ≡ time_in text.now }
{
    if text.len() <= FRACTION + 1 {
        return None;
    }
    let point = text.len() - (FRACTION + 1);
    if text[point] != POINT {
        return None;
    }
    let seconds = number_in(&text[..point])?;
    let micros = number_in(&text[point + 1..])?;
    Some(seconds * SECOND + micros * MICROSECOND)
}

/// The number that decimal digits write, if it is below 2^32. None where another octet stands among them.
fn number_in(text: &[u8]) -> Option<u64>
    ensures number { result ≡ number_in text.now }
    ensures small { IfSome result (λ number. number < 2 ^ 32) }
{
    let mut number = 0u64;
    for octet in text {
        if number >= LIMIT {
            return None;
        }
        if !is_digit(*octet) {
            return None;
        }
        number = number * 10 + u64::from(*octet - b'0');
    }
    if number < LIMIT { Some(number) } else { None }
}

fn is_digit(octet: u8) -> bool
    ensures { result ≡ is_digit octet }
{
    octet.is_ascii_digit()
}
