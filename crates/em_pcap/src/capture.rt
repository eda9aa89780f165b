//! Reading a capture, packet by packet.
ghost use Rattle.std.specs.Prelude.{◌≡◌, ◌<◌, ◌≤◌, length, IsSome};
ghost use Rattle.em_pcap.specs.Step.{IsWithin};
ghost use Rattle.em_pcap.specs.Reading.{step_of, start_step};

use crate::block::{BLOCK_TYPE, SECTION_HEADER, block_step};
use crate::classic::{header_step, magic_of, record_step};
use crate::fault::{CaptureError, CaptureFault, FaultKind};
use crate::form::{Form, Interface, Step};
use crate::order::Order;
use crate::packet::Packet;
use std::alloc::Global;

/// The octets of a magic number.
const MAGIC: usize = 4;

/// A capture that is read: the octets of a file, and how far they are read.
#[derive(Drop)]
pub struct Capture<'a> {
    file: &'a [u8],
    offset: usize,
    form: Form,
    // those that the section described so far
    interfaces: Vec<Interface>,
    ghost within: { offset ≤ length file.now },
}

impl<'a> Capture<'a> {
    ghost use Rattle.em_pcap.specs.Reading.{reading_of, IsNext};
    ghost use Rattle.em_pcap.specs.Capture.{left_of, IsRefusedThere, calls_left};

    /// A capture of which nothing is read yet, made by a machine of this address: what Linux's cooked packets say went to
    /// it is a frame to this address. Frames have their own, and ask for none.
    pub fn new(alloc: Global, file: &'a [u8], own: [u8; 6]) -> Capture<'a>
        ensures { left_of result ≡ reading_of own file.now }
    {
        Capture {
            file,
            offset: 0,
            form: Form::Start(own),
            interfaces: Vec::new(alloc),
        }
    }

    /// The next packet, or why there is none; nothing at the end, and behind a fault.
    pub fn next_packet(&mut self) -> Option<Result<Packet<'a>, CaptureError>>
        ensures next { IsNext (left_of self.old) result (left_of self.new) }
        ensures memory { IsRefusedThere self.old result }
        ensures fewer { IsSome result → calls_left self.new < calls_left self.old }
    {
        loop {
            let rest = &self.file[self.offset..];
            match step(self.form, self.interfaces.as_slice(), rest) {
                Step::Ends => {
                    self.form = Form::Done;
                    return None;
                }
                Step::Stops(kind) => {
                    self.form = Form::Done;
                    let offset = self.offset;
                    return Some(Err(CaptureError::Fault(CaptureFault { kind, offset })));
                }
                Step::Gives(found) => {
                    self.offset += found.len;
                    return Some(Ok(Packet {
                        header: found.header,
                        octets: &rest[found.at..found.at + found.captured],
                        original: found.original,
                        time: found.time,
                    }));
                }
                Step::Opens(len, form) => {
                    self.interfaces.clear();
                    self.form = form;
                    self.offset += len;
                }
                Step::Adds(len, interface) => {
                    if self.interfaces.push(interface).is_err() {
                        self.form = Form::Done;
                        return Some(Err(CaptureError::Memory));
                    }
                    self.offset += len;
                }
                Step::Skips(len) => self.offset += len,
            }
        }
    }
}

impl<'a> Iterator for Capture<'a> {
    type Item = Result<Packet<'a>, CaptureError>;

    ghost use Rattle.em_pcap.specs.Capture.{GivesNext, packets_left};

    ghost next_gives = { GivesNext };

    ghost remaining = { packets_left };

    /// The next packet, or why there is none; nothing at the end, and behind a fault.
    fn next(&mut self) -> Option<Result<Packet<'a>, CaptureError>> {
        self.next_packet()
    }
}

/// What stands at the front of these octets.
#[inline(always)]
#[tactic(auto, unfolding(crate::specs::Reading::step_of))]
fn step(form: Form, interfaces: &[Interface], octets: &[u8]) -> Step
    ensures step { result ≡ step_of form interfaces.now octets.now }
    ensures within { IsWithin (length octets.now) result }
{
    match form {
        Form::Start(own) => start_step(own, octets),
        Form::Classic(header) => record_step(header, octets),
        Form::Section(order, own) => block_step(own, order, interfaces, octets),
        Form::Done => Step::Ends,
    }
}

/// What stands at the front of a file.
#[inline(never)]
fn start_step(own: [u8; 6], file: &[u8]) -> Step
    ensures step { result ≡ start_step own file.now }
    ensures within { IsWithin (length file.now) result }
{
    if file.len() < MAGIC {
        return Step::Stops(FaultKind::CutShort);
    }
    if Order::Little.u32_at(file, BLOCK_TYPE) == SECTION_HEADER {
        return block_step(own, Order::Little, &[], file);
    }
    match magic_of(file) {
        Some((order, unit)) => header_step(own, order, unit, file),
        None => Step::Stops(FaultKind::Magic),
    }
}
