//! Times of a log and of a capture.

use em_log::{Form, printed_stamp};
use em_text::Words;
use std::fmt;

/// How many nanoseconds a microsecond has.
const MICROSECOND: u64 = 1_000;

/// How many microseconds a second has.
const SECOND: u64 = 1_000_000;

/// How many digits stand behind the point of a log's time.
const FRACTION: usize = 6;

/// When a line was logged, in nanoseconds of the log's own clock.
#[derive(Clone, Copy)]
pub struct Moment(pub u64);

impl Moment {
    /// As long behind this moment as `later` is behind `earlier`, or before it.
    pub fn moved(self, earlier: u64, later: u64) -> Moment {
        if later >= earlier {
            Moment(self.0.saturating_add(later - earlier))
        } else {
            Moment(self.0.saturating_sub(earlier - later))
        }
    }
}

/// As logs have it: seconds, and six digits behind a point.
impl fmt::Display for Moment {
    fn fmt<W: fmt::Write>(&self, f: &mut fmt::Formatter<W>) -> fmt::Result {
        let micros = self.0 / MICROSECOND;
        let seconds = micros / SECOND;
        let fraction = micros % SECOND;
        write!(f, "{seconds}.{fraction:06}")
    }
}

/// When a line was logged that is an access, where the log says it: QEMU as `PID@SECONDS.MICROSECONDS:` before the
/// event, mmiotrace behind the access's width, and a driver somewhere before the access. (simpletrace.py prints how long an
/// event came behind the one before it.)
pub fn moment_of(form: Option<Form>, line: &[u8]) -> Option<Moment> {
    let mut words = Words(line);
    let text = match form? {
        Form::Qemu => stamp_in(words.next()?)?,
        Form::Mmiotrace => {
            let _ = words.next();
            let _ = words.next();
            words.next()?
        }
        Form::Plain => printed_stamp(line)?,
    };
    moment_in(text)
}

/// What stands between the `@` and the colon of an event's first word.
fn stamp_in(word: &[u8]) -> Option<&[u8]> {
    let at = word.iter().position(|octet| *octet == b'@')?;
    let behind = word.get(at.saturating_add(1)..)?;
    let end = behind.iter().position(|octet| *octet == b':')?;
    behind.get(..end)
}

/// The moment that `SECONDS.MICROSECONDS` writes.
fn moment_in(text: &[u8]) -> Option<Moment> {
    let text = str::from_utf8(text).ok()?;
    let (seconds, fraction) = text.split_once('.')?;
    if fraction.len() != FRACTION {
        return None;
    }
    let micros = digits_in(seconds)?
        .checked_mul(SECOND)?
        .checked_add(digits_in(fraction)?)?;
    Some(Moment(micros.checked_mul(MICROSECOND)?))
}

/// The number that decimal digits write, and nothing else.
fn digits_in(text: &str) -> Option<u64> {
    if text.as_bytes().iter().all(|octet| octet.is_ascii_digit()) {
        text.parse::<u64>().ok()
    } else {
        None
    }
}
