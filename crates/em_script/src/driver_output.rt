//! Writing what calls of a driver answer.
ghost use Rattle.std.specs.Prelude.{◌≡◌, ◌++◌};
ghost use Rattle.em_text.specs.Writer.{Writes};
ghost use Rattle.em_turn.specs.Planned.{lists};
ghost use Rattle.em_output.specs.Wire.{frames_text};
ghost use Rattle.em_script.specs.Outcome.{Prints};
ghost use Rattle.em_script.specs.DriverAnswer.{plain, driver_reply_text, counts_text};
ghost use Rattle.em_script.specs.DriverAnswer.{driver_answer_text, driver_answer_outcome};
ghost use Rattle.em_script.specs.DriverAnswer.{result_text, result_outcome};
ghost use Rattle.em_script.specs.DriverText.{started_text, batch_text, stopped_text, stats_text, address_text};
ghost use Rattle.em_script.specs.DriverText.{turns_text, turns_end, no_driver_text};

use crate::driver_answer::DriverAnswer;
use crate::driver_reply::{DriverReply, PlanCounts};
use crate::no_driver::NoDriver;
use crate::outcome::{Outcome, Refused};
use crate::printed::{write_count, write_done};
use em_driver::{Batch, Cause, DeviceStats, Stopped};
use em_text::{WriteFailed, octet_digits, write_numbers_line, write_octets_line, write_pieces};
use itoa::Buffer;
use std::collections::VecDeque;
use std::io::Write;

/// What a driver did on a line.
pub fn write_driver_reply<W: Write>(
    writer: &mut W,
    reply: &DriverReply,
) -> Result<Outcome, WriteFailed>
    ensures { Prints (driver_reply_text reply.now) (driver_answer_outcome (plain reply.now.answer))
        (W.contents writer.old) (W.contents writer.new) result }
{
    let outcome = write_driver_answer(writer, reply.events, &reply.answer)?;
    write_plan(writer, reply.plan)?;
    Ok(outcome)
}

/// The counts of a plan, where one was set.
fn write_plan<W: Write>(writer: &mut W, plan: Option<PlanCounts>) -> Result<(), WriteFailed>
    ensures { Writes (W.contents writer.old) (W.contents writer.new) result (counts_text plan) }
{
    match plan {
        Some(counts) => write_turns(writer, counts),
        None => Ok(()),
    }
}

/// What a driver answered, with so many events.
fn write_driver_answer<W: Write>(
    writer: &mut W,
    events: u32,
    answer: &DriverAnswer,
) -> Result<Outcome, WriteFailed>
    ensures { Prints (driver_answer_text events (plain answer.now)) (driver_answer_outcome (plain answer.now))
        (W.contents writer.old) (W.contents writer.new) result }
{
    match answer {
        DriverAnswer::Start(None) => write_started(writer, events),
        DriverAnswer::Start(Some(cause)) => write_stopped(writer, 0, events, *cause),
        DriverAnswer::Batch(packets, result) => write_moved(writer, packets, *result),
        DriverAnswer::Stats(stats) => write_stats(writer, *stats),
        DriverAnswer::Address(address) => write_address(writer, *address),
        DriverAnswer::Set => write_done(writer),
    }
}

/// How a call that moves packets ended, and then the packets that came.
fn write_moved<W: Write>(
    writer: &mut W,
    packets: &VecDeque<Vec<u8>>,
    moved: Result<Batch, Stopped>,
) -> Result<Outcome, WriteFailed>
    ensures { Prints (result_text moved ++ frames_text (lists packets.now.items)) (result_outcome moved)
        (W.contents writer.old) (W.contents writer.new) result }
{
    let outcome = write_result(writer, moved)?;
    write_packets(writer, packets)?;
    Ok(outcome)
}

/// How a call that moves packets ended.
fn write_result<W: Write>(
    writer: &mut W,
    moved: Result<Batch, Stopped>,
) -> Result<Outcome, WriteFailed>
    ensures { Prints (result_text moved) (result_outcome moved) (W.contents writer.old) (W.contents writer.new) result }
{
    match moved {
        Ok(batch) => write_batch(writer, batch.count, batch.events),
        Err(stopped) => write_stopped(writer, stopped.count, stopped.events, stopped.cause),
    }
}

/// The octets of each packet on a line of its own.
fn write_packets<W: Write>(writer: &mut W, packets: &VecDeque<Vec<u8>>) -> Result<(), WriteFailed>
    ensures writes { Writes (W.contents writer.old) (W.contents writer.new) result
        (frames_text (lists packets.now.items)) }
{
    for packet in packets {
        write_octets_line(writer, packet)?;
    }
    Ok(())
}

/// That a driver was started, with so many events.
fn write_started<W: Write>(writer: &mut W, events: u32) -> Result<Outcome, WriteFailed>
    ensures { Prints (started_text events) Outcome.Done (W.contents writer.old) (W.contents writer.new) result }
{
    write_count(writer, b"started ", u64::from(events))
}

/// That so many packets were moved, with so many events.
fn write_batch<W: Write>(writer: &mut W, count: u32, events: u32) -> Result<Outcome, WriteFailed>
    ensures { Prints (batch_text count events) Outcome.Done (W.contents writer.old) (W.contents writer.new) result }
{
    write_numbers_line(
        writer,
        b"batch ",
        u64::from(count),
        u64::from(events),
        b"\n",
    )?;
    Ok(Outcome::Done)
}

/// That a call stopped after so many packets and events, and why.
fn write_stopped<W: Write>(
    writer: &mut W,
    count: u32,
    events: u32,
    cause: Cause,
) -> Result<Outcome, WriteFailed>
    ensures { Prints (stopped_text count events cause) (Outcome.Refused (Refused.Stopped cause))
        (W.contents writer.old) (W.contents writer.new) result }
{
    let mut packets = Buffer::new();
    let mut own = Buffer::new();
    let packets = packets.format(count).as_bytes();
    let own = own.format(events).as_bytes();
    let name = cause.name().as_bytes();
    write_pieces(
        writer,
        &[b"stopped ", packets, b" ", own, b" ", name, b"\n"],
    )?;
    Ok(Outcome::Refused(Refused::Stopped(cause)))
}

/// The packets and octets that a driver counted.
fn write_stats<W: Write>(writer: &mut W, stats: DeviceStats) -> Result<Outcome, WriteFailed>
    ensures { Prints (stats_text stats) Outcome.Done (W.contents writer.old) (W.contents writer.new) result }
{
    let mut rx_pkts = Buffer::new();
    let mut tx_pkts = Buffer::new();
    let mut rx_bytes = Buffer::new();
    let mut tx_bytes = Buffer::new();
    let rx_pkts = rx_pkts.format(stats.rx_pkts).as_bytes();
    let tx_pkts = tx_pkts.format(stats.tx_pkts).as_bytes();
    let rx_bytes = rx_bytes.format(stats.rx_bytes).as_bytes();
    let tx_bytes = tx_bytes.format(stats.tx_bytes).as_bytes();
    write_pieces(
        writer,
        &[
            b"stats ", rx_pkts, b" ", tx_pkts, b" ", rx_bytes, b" ", tx_bytes, b"\n",
        ],
    )?;
    Ok(Outcome::Done)
}

/// An Ethernet address.
fn write_address<W: Write>(writer: &mut W, address: [u8; 6]) -> Result<Outcome, WriteFailed>
    ensures { Prints (address_text address) Outcome.Done (W.contents writer.old) (W.contents writer.new) result }
{
    let first = octet_digits(address[0]);
    let second = octet_digits(address[1]);
    let third = octet_digits(address[2]);
    let fourth = octet_digits(address[3]);
    let fifth = octet_digits(address[4]);
    let last = octet_digits(address[5]);
    write_pieces(
        writer,
        &[
            &first, b":", &second, b":", &third, b":", &fourth, b":", &fifth, b":", &last, b"\n",
        ],
    )?;
    Ok(Outcome::Done)
}

/// How many turns of a plan were performed and how many refused, and whether memory was refused to
/// one.
fn write_turns<W: Write>(writer: &mut W, counts: PlanCounts) -> Result<(), WriteFailed>
    ensures { Writes (W.contents writer.old) (W.contents writer.new) result
        (turns_text counts.performed counts.refused counts.starved) }
{
    write_numbers_line(
        writer,
        b"turns ",
        u64::from(counts.performed),
        u64::from(counts.refused),
        turns_end(counts.starved),
    )
}

/// What ends the line of a plan's turns.
fn turns_end(starved: bool) -> &'static [u8]
    ensures { result.now ≡ turns_end starved }
{
    if starved {
        b" Memory\n".as_slice()
    } else {
        b"\n".as_slice()
    }
}

/// That there is no driver.
pub fn write_no_driver<W: Write>(writer: &mut W) -> Result<Outcome, WriteFailed>
    ensures { Prints no_driver_text (Outcome.Refused Refused.NoDriver)
        (W.contents writer.old) (W.contents writer.new) result }
{
    write_pieces(writer, &[b"refused ", NoDriver.name().as_bytes(), b"\n"])?;
    Ok(Outcome::Refused(Refused::NoDriver))
}
