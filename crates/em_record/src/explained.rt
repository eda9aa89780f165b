//! What is told of the event of a line besides its record: why it did nothing, and what a driver seems to get wrong by
//! it. em_debug tells the same.

use crate::fault::RecordFault;
use crate::line::without_memory;
use em_journal::Machine;
use em_json::write_string;
use em_reasons::why_of;
use em_step::{Answer, Event, Refusal};
use em_text::write_whole;
use em_warnings::{Warning, found_of, write_said};
use std::alloc::Global;
use std::io::Write;

/// What the event of a line came to, if it has one.
type Came = Option<Result<Answer, Refusal>>;

/// Why the event of a line did nothing, in words; no octet where it did something. The machine is as it left it.
pub fn reason(
    alloc: Global,
    machine: &Machine,
    event: Option<Event<'_>>,
    came: Came,
) -> Result<Vec<u8>, RecordFault> {
    let mut text = Vec::new(alloc);
    if let (Some(event), Some(outcome)) = (event, came) {
        if let Some(why) = why_of(machine, event, outcome) {
            why.write(&mut text).map_err(without_memory)?;
        }
    }
    Ok(text)
}

/// Writes the warnings of a line, if it has any, as a list behind the name of their field. The machine is as the line
/// left it.
pub fn write_warnings<W: Write>(
    alloc: Global,
    writer: &mut W,
    machine: &Machine,
    event: Option<Event<'_>>,
    came: Came,
) -> Result<(), RecordFault> {
    let Some(found) = found_of(machine, access_of(event), came) else {
        return Ok(());
    };
    let mut before: &[u8] = b",\"warnings\":[";
    let mut is_any = false;
    for warning in found {
        if let Some(warning) = warning {
            write_whole(writer, before)?;
            write_warning(alloc, writer, warning)?;
            before = b",";
            is_any = true;
        }
    }
    if is_any {
        write_whole(writer, b"]")?;
    }
    Ok(())
}

/// Writes a warning as a string: the name of its rule, and what that says.
fn write_warning<W: Write>(
    alloc: Global,
    writer: &mut W,
    warning: Warning,
) -> Result<(), RecordFault> {
    let mut text = Vec::new(alloc);
    write_whole(&mut text, warning.name().as_bytes()).map_err(without_memory)?;
    write_whole(&mut text, b": ").map_err(without_memory)?;
    write_said(&mut text, warning).map_err(without_memory)?;
    write_string(writer, text.as_slice())?;
    Ok(())
}

/// An access of a register; none of another event. When a driver writes guest memory is not known of all scripts, so
/// em_debug asks no rule of it.
fn access_of(event: Option<Event<'_>>) -> Option<Event<'_>> {
    match event {
        Some(Event::Read(_) | Event::Write(..)) => event,
        _ => None,
    }
}
