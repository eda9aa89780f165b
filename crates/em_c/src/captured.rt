//! The frames of a capture, of which each is handed over once.
ghost use Rattle.std.specs.Prelude.{◌≡◌, IfOk, IfErr};
ghost use Rattle.em_pcap.specs.Frame.{frame_of};
ghost use Rattle.em_pcap.specs.Reading.{reading_of};
ghost use Rattle.em_c.specs.Refused.{number, told};
ghost use Rattle.em_c.specs.Looks.{laid_into, length_of};
ghost use Rattle.em_c.specs.Pcap.{Adds, after_next, end_of, fault_in, first_in, frame_told, of_fault, octets_of, own_address, reading_in};
ghost use Rattle.em_c.specs.Pcap.{told_into};

use crate::refused::Refused;
use crate::room::lay;
use crate::told::flag;
use em_pcap::{Capture, CaptureError, CaptureFault, FaultKind, Packet};
use std::alloc::Global;
use std::collections::VecDeque;

/// The address that a machine has where nobody says otherwise: what cooked packets say went to the machine that made a
/// capture is a frame to it.
const OWN: [u8; 6] = [0x52, 0x54, 0x00, 0x12, 0x34, 0x56];

/// A frame of a capture, beside its octets.
#[repr(C)]
#[derive(Clone, Copy)]
pub struct EmPcapFrame {
    /// When it was captured, in nanoseconds since 1970 began; 0 where the capture does not say it.
    pub nanoseconds: u64,
    /// How many octets the frame had; its capture has fewer of one that was cut.
    pub original: u32,
    /// 1 where the capture says when it was captured, else 0.
    pub timed: u32,
}

/// A frame that was captured.
#[derive(Drop)]
pub struct Captured {
    /// The octets that were captured.
    pub octets: Vec<u8>,
    /// How many the frame had.
    pub original: u32,
    /// When, in nanoseconds since 1970 began, where the capture says it.
    pub time: Option<u64>,
}

/// The frames of a capture that were not handed over, and the fault behind them if there is one.
#[derive(Drop)]
pub struct Frames {
    pub queue: VecDeque<Captured>,
    pub fault: Option<CaptureFault>,
}

impl Frames {
    /// All frames of a capture, by the octets of its file.
    pub fn read(alloc: Global, file: &[u8]) -> Result<Frames, Refused>
        ensures ok { IfOk result (λ frames. reading_in frames ≡ reading_of own_address file.now) }
        ensures err { IfErr result (λ refused. refused ≡ Refused.Memory) }
    {
        let mut frames = Frames {
            queue: VecDeque::new(alloc),
            fault: None,
        };
        let mut capture = Capture::new(alloc, file, OWN);
        'packets: loop {
            match capture.next_packet() {
                None => return Ok(frames),
                Some(Ok(packet)) => {
                    if !frames.add(alloc, &packet) {
                        return Err(Refused::Memory);
                    }
                }
                Some(Err(CaptureError::Fault(fault))) => {
                    frames.fault = Some(fault);
                    return Ok(frames);
                }
                Some(Err(CaptureError::Memory)) => return Err(Refused::Memory),
            }
        }
    }

    /// Adds a packet; false where memory is refused for it.
    fn add(&mut self, alloc: Global, packet: &Packet<'_>) -> bool
        ensures { Adds (frame_of packet.now) self.old self.new result }
    {
        let Ok(octets) = packet.to_vec(alloc) else {
            return false;
        };
        let captured = Captured {
            octets,
            original: packet.original,
            time: packet.time,
        };
        self.queue.push_back(captured).is_ok()
    }

    /// Hands the next frame over, and tells how many octets were captured of it. Where there is no room for them nothing is
    /// copied, and it is the next one still.
    pub fn hand_over(
        &mut self,
        out: &mut [u8],
        octets: &mut usize,
        frame: &mut EmPcapFrame,
    ) -> Result<(), Refused>
        ensures outcome { number result ≡ number (laid_into out.old (octets_of (first_in (reading_in self.old)))) }
        ensures octets { out.new ≡ told out.old (laid_into out.old (octets_of (first_in (reading_in self.old)))) }
        ensures length { octets.new ≡ told octets.old (length_of (octets_of (first_in (reading_in self.old)))) }
        ensures frame { frame.new ≡ told frame.old (told_into out.old (first_in (reading_in self.old))) }
        ensures left { reading_in self.new ≡ after_next out.old (reading_in self.old) }
    {
        let Some(next) = self.queue.front() else {
            return Err(self.end());
        };
        lay(next.octets.as_slice(), out, octets)?;
        *frame = frame_told(next);
        drop(self.queue.pop_front());
        Ok(())
    }

    /// Why no frame follows the last one.
    fn end(&self) -> Refused
        ensures { result ≡ end_of self.now.fault }
    {
        match self.fault {
            None => Refused::CaptureEnd,
            Some(fault) => refused_by(fault.kind),
        }
    }

    /// Where in the capture's file its fault is.
    pub fn fault_at(&self) -> Result<usize, Refused>
        ensures { result ≡ fault_in (reading_in self.now) }
    {
        match self.fault {
            None => Err(Refused::CaptureEnd),
            Some(fault) => Ok(fault.offset),
        }
    }
}

/// What C is told of a frame beside its octets.
fn frame_told(captured: &Captured) -> EmPcapFrame
    ensures { result ≡ frame_told captured.now.original captured.now.time }
{
    EmPcapFrame {
        nanoseconds: captured.time.unwrap_or(0),
        original: captured.original,
        timed: flag(captured.time.is_some()),
    }
}

/// What is wrong with a capture, as a refusal.
fn refused_by(fault: FaultKind) -> Refused
    ensures { result ≡ of_fault fault }
{
    match fault {
        FaultKind::Magic => Refused::CaptureMagic,
        FaultKind::Version => Refused::CaptureVersion,
        FaultKind::CutShort => Refused::CaptureCut,
        FaultKind::BlockLength => Refused::CaptureBlock,
        FaultKind::LinkType => Refused::CaptureLink,
        FaultKind::CapturedLength => Refused::CaptureLength,
        FaultKind::NoInterface => Refused::CaptureInterface,
    }
}
