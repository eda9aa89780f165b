//! A log's lines, one at a time, however long they are.

use em_text::next_line;
use std::io::{BufRead, Result};

/// How many octets of a line are kept: an access takes far fewer, and a write into memory has its octets there.
pub const MOST_KEPT: usize = 65_536;

/// Reads a line in place of what `line` held, and nothing behind it: false where the reader is at its end.
///
/// The line is without its newline. What follows the last newline is a line too, unless it is empty. Of a longer line
/// the first [`MOST_KEPT`] octets are kept.
pub fn read_line<R: BufRead>(reader: &mut R, line: &mut Vec<u8>) -> Result<bool> {
    line.clear();
    let mut begun = false;
    for reads in 0..u64::MAX {
        let octets = reader.fill_buf()?;
        if octets.is_empty() {
            return Ok(begun);
        }
        begun = true;
        let len = octets.len();
        let end = next_line(octets).0.len();
        let room = MOST_KEPT - line.len().min(MOST_KEPT);
        line.extend_from_slice(&octets[..end.min(room)])?;
        if end < len {
            reader.consume(end + 1);
            return Ok(true);
        }
        reader.consume(len);
    }
    Ok(begun)
}
